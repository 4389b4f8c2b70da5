// The parts of records, read and written.
ghost use Rattle.std.specs.Prelude.{◌≡◌, ◌++◌, ◌+◌, ◌<◌, ◌≤◌, ◌∷◌, [], List, ℕ, length, OnOk, OnErr, Result};
ghost use Rattle.std.specs.Vec.{vec_len, vec_capacity};
ghost use Rattle.byte_fields.specs.Faults.{Gives};
ghost use Rattle.byte_fields.specs.Records.{hashes, batch_bytes, compact_bytes, entry_bytes, reply_bytes, answered_bytes, outcome_bytes, decision_bytes, byte_at, small_at, batch_at, compact_at, entry_at, missing_reply_at, locked_reply_at, reply_field_at, answered_at, missing_outcome_at, locked_outcome_at, outcome_field_at, decision_at};

use crate::fault::{Fault, ReadError};
use crate::reading::{Item, hash_in, list, number, split};
use crate::writing::{Spell, put_hash, put_list, put_number};
use cbdc_types::{Answered, BatchId, CompactTx, Entry, Hash, InputKind, LaneId, Outcome, Reply};
use std::alloc::{AllocError, Global};

/// Puts a byte at the end.
pub fn put_byte(out: &mut Vec<u8>, n: u8) -> Result<(), AllocError>
    ensures ok { OnOk result (out.new.items ≡ out.old.items ++ n ∷ []) }
    ensures len { OnOk result (vec_len out.new ≡ vec_len out.old + 1) }
    ensures full { OnErr result (vec_capacity out.old < vec_len out.old + 1) }
    ensures capacity { vec_capacity out.old ≤ vec_capacity out.new }
{
    out.extend_from_slice(&[n])
}

impl Spell for BatchId {
    ghost spelled = { batch_bytes };

    fn put(&self, out: &mut Vec<u8>) -> Result<(), AllocError> {
        put_number(out, self.lane.0 as u64)?;
        put_number(out, self.number)
    }
}

impl Spell for CompactTx {
    ghost spelled = { compact_bytes };

    fn put(&self, out: &mut Vec<u8>) -> Result<(), AllocError> {
        put_hash(out, &self.id)?;
        put_list(out, &self.inputs)?;
        put_list(out, &self.outputs)
    }
}

impl Spell for Entry {
    ghost spelled = { entry_bytes };

    fn put(&self, out: &mut Vec<u8>) -> Result<(), AllocError> {
        put_number(out, self.place as u64)?;
        put_hash(out, &self.id)?;
        put_list(out, &self.inputs)?;
        put_list(out, &self.outputs)
    }
}

impl Spell for Reply {
    ghost spelled = { reply_bytes };

    fn put(&self, out: &mut Vec<u8>) -> Result<(), AllocError> {
        match self {
            Reply::Held => put_byte(out, 0),
            Reply::Missing(x) => {
                put_byte(out, 1)?;
                put_hash(out, x)
            }
            Reply::Locked(x, by) => {
                put_byte(out, 2)?;
                put_hash(out, x)?;
                by.put(out)
            }
        }
    }
}

impl Spell for Answered {
    ghost spelled = { answered_bytes };

    fn put(&self, out: &mut Vec<u8>) -> Result<(), AllocError> {
        self.entry.put(out)?;
        self.reply.put(out)
    }
}

impl Spell for Outcome {
    ghost spelled = { outcome_bytes };

    fn put(&self, out: &mut Vec<u8>) -> Result<(), AllocError> {
        match self {
            Outcome::Held => put_byte(out, 0),
            Outcome::Missing(shard, x) => {
                put_byte(out, 1)?;
                put_number(out, *shard as u64)?;
                put_hash(out, x)
            }
            Outcome::Locked(shard, x, by) => {
                put_byte(out, 2)?;
                put_number(out, *shard as u64)?;
                put_hash(out, x)?;
                by.put(out)
            }
        }
    }
}

impl Spell for bool {
    ghost spelled = { decision_bytes };

    fn put(&self, out: &mut Vec<u8>) -> Result<(), AllocError> {
        if *self {
            put_byte(out, 1)
        } else {
            put_byte(out, 0)
        }
    }
}

/// A byte.
pub fn byte(bytes: &[u8]) -> Result<(u8, &[u8]), ReadError>
    ensures { Gives (λ x. (x.0, x.1.now)) result (byte_at bytes.now) }
{
    let (field, rest) = split(bytes, 1)?;
    Ok((field[0], rest))
}

/// A number below 2^32.
#[tactic(auto, unfolding(crate::specs::Records::small_at))]
pub fn small_number(bytes: &[u8]) -> Result<(u32, &[u8]), ReadError>
    ensures { Gives (λ x. (x.0, x.1.now)) result (small_at bytes.now) }
{
    let (n, rest) = number(bytes)?;
    if n < 4294967296 {
        Ok((n as u32, rest))
    } else {
        Err(ReadError::Bad(Fault {
            left: bytes.len(),
            kind: InputKind::Large,
        }))
    }
}

#[tactic(auto, unfolding(crate::specs::Records::batch_at))]
/// A lane and a number.
pub fn batch_id(bytes: &[u8]) -> Result<(BatchId, &[u8]), ReadError>
    ensures { Gives (λ x. (x.0, x.1.now)) result (batch_at bytes.now) }
{
    let (lane, rest) = small_number(bytes)?;
    let (number, rest) = number(rest)?;
    Ok((
        BatchId {
            lane: LaneId(lane),
            number,
        },
        rest,
    ))
}

impl Item for BatchId {
    ghost item_at = { batch_at };

    fn read(_alloc: Global, bytes: &[u8]) -> Result<(BatchId, &[u8]), ReadError> {
        batch_id(bytes)
    }
}

#[tactic(auto, unfolding(crate::specs::Records::compact_at))]
impl Item for CompactTx {
    ghost item_at = { compact_at };

    fn read(alloc: Global, bytes: &[u8]) -> Result<(CompactTx, &[u8]), ReadError> {
        let (field, rest) = split(bytes, 32)?;
        let id = hash_in(field);
        let (inputs, rest) = list::<Hash>(alloc, 255, rest)?;
        let (outputs, rest) = list::<Hash>(alloc, 255, rest)?;
        Ok((
            CompactTx {
                id,
                inputs,
                outputs,
            },
            rest,
        ))
    }
}

#[tactic(auto, unfolding(crate::specs::Records::entry_at))]
impl Item for Entry {
    ghost item_at = { entry_at };

    fn read(alloc: Global, bytes: &[u8]) -> Result<(Entry, &[u8]), ReadError> {
        let (place, rest) = small_number(bytes)?;
        let (field, rest) = split(rest, 32)?;
        let id = hash_in(field);
        let (inputs, rest) = list::<Hash>(alloc, 255, rest)?;
        let (outputs, rest) = list::<Hash>(alloc, 255, rest)?;
        Ok((
            Entry {
                place,
                id,
                inputs,
                outputs,
            },
            rest,
        ))
    }
}

#[tactic(auto, unfolding(crate::specs::Records::missing_reply_at))]
fn missing_reply(bytes: &[u8]) -> Result<(Reply, &[u8]), ReadError>
    ensures { Gives (λ x. (x.0, x.1.now)) result (missing_reply_at bytes.now) }
{
    let (field, rest) = split(bytes, 32)?;
    let x = hash_in(field);
    Ok((Reply::Missing(x), rest))
}

#[tactic(auto, unfolding(crate::specs::Records::locked_reply_at, crate::specs::Records::batch_at))]
fn locked_reply(bytes: &[u8]) -> Result<(Reply, &[u8]), ReadError>
    ensures { Gives (λ x. (x.0, x.1.now)) result (locked_reply_at bytes.now) }
{
    let (field, rest) = split(bytes, 32)?;
    let x = hash_in(field);
    let (lane, rest) = small_number(rest)?;
    let (number, rest) = number(rest)?;
    let by = BatchId {
        lane: LaneId(lane),
        number,
    };
    Ok((Reply::Locked(x, by), rest))
}

#[tactic(auto, unfolding(crate::specs::Records::reply_field_at))]
fn reply_in(bytes: &[u8]) -> Result<(Reply, &[u8]), ReadError>
    ensures { Gives (λ x. (x.0, x.1.now)) result (reply_field_at bytes.now) }
{
    let (tag, rest) = byte(bytes)?;
    if tag == 0 {
        return Ok((Reply::Held, rest));
    }
    if tag == 1 {
        return missing_reply(rest);
    }
    if tag == 2 {
        return locked_reply(rest);
    }
    Err(ReadError::Bad(Fault {
        left: bytes.len(),
        kind: InputKind::Form,
    }))
}

impl Item for Reply {
    ghost item_at = { reply_field_at };

    fn read(_alloc: Global, bytes: &[u8]) -> Result<(Reply, &[u8]), ReadError> {
        reply_in(bytes)
    }
}

#[tactic(auto, unfolding(crate::specs::Records::answered_at))]
impl Item for Answered {
    ghost item_at = { answered_at };

    fn read(alloc: Global, bytes: &[u8]) -> Result<(Answered, &[u8]), ReadError> {
        let (entry, rest) = Entry::read(alloc, bytes)?;
        match reply_in(rest) {
            Ok(found) => {
                let (reply, rest) = found;
                Ok((Answered { entry, reply }, rest))
            }
            Err(e) => Err(e),
        }
    }
}

#[tactic(auto, unfolding(crate::specs::Records::missing_outcome_at))]
fn missing_outcome(bytes: &[u8]) -> Result<(Outcome, &[u8]), ReadError>
    ensures { Gives (λ x. (x.0, x.1.now)) result (missing_outcome_at bytes.now) }
{
    let (shard, rest) = small_number(bytes)?;
    let (field, rest) = split(rest, 32)?;
    let x = hash_in(field);
    Ok((Outcome::Missing(shard, x), rest))
}

#[tactic(auto, unfolding(crate::specs::Records::locked_outcome_at, crate::specs::Records::batch_at))]
fn locked_outcome(bytes: &[u8]) -> Result<(Outcome, &[u8]), ReadError>
    ensures { Gives (λ x. (x.0, x.1.now)) result (locked_outcome_at bytes.now) }
{
    let (shard, rest) = small_number(bytes)?;
    let (field, rest) = split(rest, 32)?;
    let x = hash_in(field);
    let (lane, rest) = small_number(rest)?;
    let (number, rest) = number(rest)?;
    let by = BatchId {
        lane: LaneId(lane),
        number,
    };
    Ok((Outcome::Locked(shard, x, by), rest))
}

#[tactic(auto, unfolding(crate::specs::Records::outcome_field_at))]
fn outcome_in(bytes: &[u8]) -> Result<(Outcome, &[u8]), ReadError>
    ensures { Gives (λ x. (x.0, x.1.now)) result (outcome_field_at bytes.now) }
{
    let (tag, rest) = byte(bytes)?;
    if tag == 0 {
        return Ok((Outcome::Held, rest));
    }
    if tag == 1 {
        return missing_outcome(rest);
    }
    if tag == 2 {
        return locked_outcome(rest);
    }
    Err(ReadError::Bad(Fault {
        left: bytes.len(),
        kind: InputKind::Form,
    }))
}

impl Item for Outcome {
    ghost item_at = { outcome_field_at };

    fn read(_alloc: Global, bytes: &[u8]) -> Result<(Outcome, &[u8]), ReadError> {
        outcome_in(bytes)
    }
}

#[tactic(auto, unfolding(crate::specs::Records::decision_at))]
fn decision_in(bytes: &[u8]) -> Result<(bool, &[u8]), ReadError>
    ensures { Gives (λ x. (x.0, x.1.now)) result (decision_at bytes.now) }
{
    let (tag, rest) = byte(bytes)?;
    if tag == 0 {
        return Ok((false, rest));
    }
    if tag == 1 {
        return Ok((true, rest));
    }
    Err(ReadError::Bad(Fault {
        left: bytes.len(),
        kind: InputKind::Form,
    }))
}

impl Item for bool {
    ghost item_at = { decision_at };

    fn read(_alloc: Global, bytes: &[u8]) -> Result<(bool, &[u8]), ReadError> {
        decision_in(bytes)
    }
}
