// Reading a record.
ghost use Rattle.std.specs.Prelude.{◌≡◌, ◌↔◌, IfOk, IsTrue, if◌then◌else◌, Some, None, bytes_eq};
ghost use Rattle.cbdc_types.specs.Limits.{IsWithinLimits};
ghost use Rattle.cbdc_model.specs.Grammar.{IsInGrammar};
ghost use Rattle.byte_fields.specs.Faults.{Gives};
ghost use Rattle.record_log.specs.Bodies.{magic};
ghost use Rattle.record_log.specs.Exact.{IsBody, IsFirstBody, IsFirstRecord, ReadsRecord};
ghost use Rattle.record_log.specs.Reading.{is_shape, magic_at, shape_at, header_at, zero_at, head_at, genesis_at, lock_at, finish_at, forget_at, start_at, prepare_at, commit_at, discard_at, done_at, body_at};

use crate::fault::RecordFault;
use byte_fields::{Fault, ReadError, batch_id, byte, hash_in, list, number, small_number, split};
use cbdc_types::{
    Answered, BatchId, CompactTx, Hash, Header, InputKind, NodeId, Outcome, Record, RecordKind,
    Shape, Stamp,
};
use record_grammar::is_in_grammar;
use std::alloc::Global;

// The stamp and the batch of a record that isn't the first.
#[derive(Clone, Copy)]
struct Head {
    stamp: Stamp,
    batch: BatchId,
}

fn is_magic(bytes: &[u8]) -> bool
    ensures { result ≡ bytes_eq bytes.now magic }
{
    bytes == [72, 65, 77, 74, 82, 78, 76, 49].as_slice()
}

#[tactic(auto, unfolding(crate::specs::Reading::magic_at))]
fn magic_in(bytes: &[u8]) -> Result<(&[u8], &[u8]), ReadError>
    ensures { Gives (λ x. (x.0.now, x.1.now)) result (magic_at bytes.now) }
{
    let (field, rest) = split(bytes, 8)?;
    if is_magic(field) {
        Ok((field, rest))
    } else {
        Err(ReadError::Bad(Fault {
            left: bytes.len(),
            kind: InputKind::Form,
        }))
    }
}

// The shape with these numbers, where each is within its limit.
fn shape_of(shards: u32, coordinators: u32, lanes: u32, batch: u32) -> Option<Shape>
    ensures { result ≡ (if is_shape
        (record { shards = shards; coordinators = coordinators; lanes = lanes; batch = batch }) then Some
        (record { shards = shards; coordinators = coordinators; lanes = lanes; batch = batch }) else None) }
{
    Shape::new(shards, coordinators, lanes, batch).ok()
}

#[tactic(auto, unfolding(crate::specs::Reading::shape_at, crate::specs::Reading::sizes_at))]
fn shape_in(bytes: &[u8]) -> Result<(Shape, &[u8]), ReadError>
    ensures { Gives (λ x. (x.0, x.1.now)) result (shape_at bytes.now) }
{
    let (shards, rest) = small_number(bytes)?;
    let (coordinators, rest) = small_number(rest)?;
    let (lanes, rest) = small_number(rest)?;
    let (batch, rest) = small_number(rest)?;
    match shape_of(shards, coordinators, lanes, batch) {
        Some(shape) => Ok((shape, rest)),
        None => Err(ReadError::Bad(Fault {
            left: bytes.len(),
            kind: InputKind::Form,
        })),
    }
}

#[tactic(auto, unfolding(crate::specs::Reading::header_at))]
fn header_in(bytes: &[u8]) -> Result<(Header, &[u8]), ReadError>
    ensures { Gives (λ x. (x.0, x.1.now)) result (header_at bytes.now) }
{
    let (_, rest) = magic_in(bytes)?;
    let (node, rest) = small_number(rest)?;
    match shape_in(rest) {
        Ok(found) => {
            let (shape, rest) = found;
            let (field, rest) = split(rest, 32)?;
            let genesis = hash_in(field);
            Ok((
                Header {
                    node: NodeId(node),
                    shape,
                    genesis,
                },
                rest,
            ))
        }
        Err(e) => Err(e),
    }
}

#[tactic(auto, unfolding(crate::specs::Reading::zero_at))]
fn zero_in(bytes: &[u8]) -> Result<(u64, &[u8]), ReadError>
    ensures { Gives (λ x. (x.0, x.1.now)) result (zero_at bytes.now) }
{
    let (stamp, rest) = number(bytes)?;
    if stamp == 0 {
        Ok((stamp, rest))
    } else {
        Err(ReadError::Bad(Fault {
            left: bytes.len(),
            kind: InputKind::Form,
        }))
    }
}

#[tactic(auto, unfolding(crate::specs::Reading::head_at))]
fn head_in(bytes: &[u8]) -> Result<(Head, &[u8]), ReadError>
    ensures { Gives (λ x. (x.0, x.1.now)) result (head_at bytes.now) }
{
    let (stamp, rest) = number(bytes)?;
    match batch_id(rest) {
        Ok(found) => {
            let (batch, rest) = found;
            Ok((
                Head {
                    stamp: Stamp(stamp),
                    batch,
                },
                rest,
            ))
        }
        Err(e) => Err(e),
    }
}

#[tactic(auto, unfolding(crate::specs::Reading::genesis_at))]
fn genesis_in(alloc: Global, bytes: &[u8]) -> Result<(Record, &[u8]), ReadError>
    ensures { Gives (λ x. (x.0, x.1.now)) result (genesis_at bytes.now) }
{
    let (_, rest) = zero_in(bytes)?;
    match header_in(rest) {
        Ok(found) => {
            let (header, rest) = found;
            let (hashes, rest) = list::<Hash>(alloc, 1000000, rest)?;
            Ok((Record::Genesis { header, hashes }, rest))
        }
        Err(e) => Err(e),
    }
}

#[tactic(auto, unfolding(crate::specs::Reading::start_at))]
fn start_in(bytes: &[u8]) -> Result<(Record, &[u8]), ReadError>
    ensures { Gives (λ x. (x.0, x.1.now)) result (start_at bytes.now) }
{
    let (_, rest) = zero_in(bytes)?;
    match header_in(rest) {
        Ok(found) => {
            let (header, rest) = found;
            Ok((Record::Start { header }, rest))
        }
        Err(e) => Err(e),
    }
}

#[tactic(auto, unfolding(crate::specs::Reading::lock_at))]
fn lock_in(alloc: Global, bytes: &[u8]) -> Result<(Record, &[u8]), ReadError>
    ensures { Gives (λ x. (x.0, x.1.now)) result (lock_at bytes.now) }
{
    match head_in(bytes) {
        Ok(found) => {
            let (head, rest) = found;
            let (entries, rest) = list::<Answered>(alloc, 1024, rest)?;
            Ok((
                Record::Lock {
                    stamp: head.stamp,
                    batch: head.batch,
                    entries,
                },
                rest,
            ))
        }
        Err(e) => Err(e),
    }
}

#[tactic(auto, unfolding(crate::specs::Reading::finish_at))]
fn finish_in(alloc: Global, bytes: &[u8]) -> Result<(Record, &[u8]), ReadError>
    ensures { Gives (λ x. (x.0, x.1.now)) result (finish_at bytes.now) }
{
    match head_in(bytes) {
        Ok(found) => {
            let (head, rest) = found;
            let (decisions, rest) = list::<bool>(alloc, 1024, rest)?;
            Ok((
                Record::Finish {
                    stamp: head.stamp,
                    batch: head.batch,
                    decisions,
                },
                rest,
            ))
        }
        Err(e) => Err(e),
    }
}

#[tactic(auto, unfolding(crate::specs::Reading::forget_at))]
fn forget_in(bytes: &[u8]) -> Result<(Record, &[u8]), ReadError>
    ensures { Gives (λ x. (x.0, x.1.now)) result (forget_at bytes.now) }
{
    match head_in(bytes) {
        Ok(found) => {
            let (head, rest) = found;
            Ok((
                Record::Forget {
                    stamp: head.stamp,
                    batch: head.batch,
                },
                rest,
            ))
        }
        Err(e) => Err(e),
    }
}

#[tactic(auto, unfolding(crate::specs::Reading::prepare_at))]
fn prepare_in(alloc: Global, bytes: &[u8]) -> Result<(Record, &[u8]), ReadError>
    ensures { Gives (λ x. (x.0, x.1.now)) result (prepare_at bytes.now) }
{
    match head_in(bytes) {
        Ok(found) => {
            let (head, rest) = found;
            let (txs, rest) = list::<CompactTx>(alloc, 1024, rest)?;
            Ok((
                Record::Prepare {
                    stamp: head.stamp,
                    batch: head.batch,
                    txs,
                },
                rest,
            ))
        }
        Err(e) => Err(e),
    }
}

#[tactic(auto, unfolding(crate::specs::Reading::commit_at))]
fn commit_in(alloc: Global, bytes: &[u8]) -> Result<(Record, &[u8]), ReadError>
    ensures { Gives (λ x. (x.0, x.1.now)) result (commit_at bytes.now) }
{
    match head_in(bytes) {
        Ok(found) => {
            let (head, rest) = found;
            let (outcomes, rest) = list::<Outcome>(alloc, 1024, rest)?;
            Ok((
                Record::Commit {
                    stamp: head.stamp,
                    batch: head.batch,
                    outcomes,
                },
                rest,
            ))
        }
        Err(e) => Err(e),
    }
}

#[tactic(auto, unfolding(crate::specs::Reading::discard_at))]
fn discard_in(bytes: &[u8]) -> Result<(Record, &[u8]), ReadError>
    ensures { Gives (λ x. (x.0, x.1.now)) result (discard_at bytes.now) }
{
    match head_in(bytes) {
        Ok(found) => {
            let (head, rest) = found;
            Ok((
                Record::Discard {
                    stamp: head.stamp,
                    batch: head.batch,
                },
                rest,
            ))
        }
        Err(e) => Err(e),
    }
}

#[tactic(auto, unfolding(crate::specs::Reading::done_at))]
fn done_in(bytes: &[u8]) -> Result<(Record, &[u8]), ReadError>
    ensures { Gives (λ x. (x.0, x.1.now)) result (done_at bytes.now) }
{
    match head_in(bytes) {
        Ok(found) => {
            let (head, rest) = found;
            Ok((
                Record::Done {
                    stamp: head.stamp,
                    batch: head.batch,
                },
                rest,
            ))
        }
        Err(e) => Err(e),
    }
}

// The record at the front of the bytes, whatever its header, and what is behind it.
#[tactic(auto, unfolding(crate::specs::Reading::body_at))]
fn body(alloc: Global, bytes: &[u8]) -> Result<(Record, &[u8]), ReadError>
    ensures { Gives (λ x. (x.0, x.1.now)) result (body_at bytes.now) }
{
    let (kind, rest) = byte(bytes)?;
    if kind == RecordKind::Genesis as u8 {
        return genesis_in(alloc, rest);
    }
    if kind == RecordKind::Lock as u8 {
        return lock_in(alloc, rest);
    }
    if kind == RecordKind::Finish as u8 {
        return finish_in(alloc, rest);
    }
    if kind == RecordKind::Forget as u8 {
        return forget_in(rest);
    }
    if kind == RecordKind::Start as u8 {
        return start_in(rest);
    }
    if kind == RecordKind::Prepare as u8 {
        return prepare_in(alloc, rest);
    }
    if kind == RecordKind::Commit as u8 {
        return commit_in(alloc, rest);
    }
    if kind == RecordKind::Discard as u8 {
        return discard_in(rest);
    }
    if kind == RecordKind::Done as u8 {
        return done_in(rest);
    }
    Err(ReadError::Bad(Fault {
        left: bytes.len(),
        kind: InputKind::Form,
    }))
}

/// The record whose body the bytes are, where it may stand in a journal with this header: the
/// header names the node and the shape in force.
pub fn read_record(alloc: Global, bytes: &[u8], header: &Header) -> Result<Record, RecordFault>
    // What is read is spelled so, and may stand there.
    ensures found { IfOk result (λ r. IsBody header.now bytes.now r) }
    // What is spelled so and may stand there is read, unless memory runs out.
    ensures only { (r : _) → IsBody header.now bytes.now r → ReadsRecord r result }
{
    // The shape is within its limits, so that each list that may stand there can be read.
    let _limit = header.shape.batch();
    match body(alloc, bytes) {
        Ok((record, rest)) => {
            if rest.is_empty() && is_in_grammar(header, &record) {
                Ok(record)
            } else {
                Err(RecordFault::NotARecord)
            }
        }
        Err(ReadError::Bad(_)) => Err(RecordFault::NotARecord),
        Err(ReadError::Memory) => Err(RecordFault::Memory),
    }
}

// Whether it may stand in a journal with this header.
fn is_under(header: &Header, record: &Record) -> bool
    ensures { IsTrue result ↔ (IsWithinLimits header.now.shape × IsInGrammar header.now record.now) }
{
    // The shape is within its limits, as each is.
    let _limit = header.shape.batch();
    is_in_grammar(header, record)
}

// Whether it is a Genesis or a Start that may stand under its own header.
fn is_first(record: &Record) -> bool
    ensures { IsTrue result ↔ IsFirstRecord record.now }
{
    match record {
        Record::Genesis { header, hashes: _ } => is_under(header, record),
        Record::Start { header } => is_under(header, record),
        _ => false,
    }
}

/// The first record of a journal, whose body the bytes are: a Genesis or a Start under its own header.
pub fn read_first(alloc: Global, bytes: &[u8]) -> Result<Record, RecordFault>
    // What is read is spelled so, and a journal may begin with it.
    ensures found { IfOk result (λ r. IsFirstBody bytes.now r) }
    // What is spelled so and may begin a journal is read, unless memory runs out.
    ensures only { (r : _) → IsFirstBody bytes.now r → ReadsRecord r result }
{
    match body(alloc, bytes) {
        Ok((record, rest)) => {
            if rest.is_empty() && is_first(&record) {
                Ok(record)
            } else {
                Err(RecordFault::NotARecord)
            }
        }
        Err(ReadError::Bad(_)) => Err(RecordFault::NotARecord),
        Err(ReadError::Memory) => Err(RecordFault::Memory),
    }
}
