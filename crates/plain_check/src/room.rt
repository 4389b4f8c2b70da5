// How many bytes a record takes in its journal, how many are kept free for records still to come, and how many a journal
// takes. Inside, 2^64 - 1 stands for a number that is not below it.
ghost use Rattle.std.specs.Prelude.{◌≡◌, ◌+◌, ◌*◌, ◌-◌, ◌^◌, ◌<◌, ◌≤◌, min, sum_by, MatchOption};
ghost use Rattle.cbdc_model.specs.Room.{reply_size, outcome_size, compact_size, answered_size, size_of, room_in, lane_room, kept_below, kept_room, need_of};
ghost use Rattle.cbdc_model.specs.Due.{used_of};
ghost use Rattle.same_records.specs.Slots.{phase_in};

use cbdc_types::{Answered, BatchId, CompactTx, LaneId, Outcome, Record, Reply, Shape};
use same_records::{Phase, lock_of, slot_of, txs_of};

// The number, none where it may stand for a greater one.
fn counted(bytes: u64) -> Option<u64>
    ensures { MatchOption result (bytes ≡ 2 ^ 64 - 1) (λ n. (n ≡ bytes) × (n < 2 ^ 64 - 1)) }
{
    if bytes < u64::MAX { Some(bytes) } else { None }
}

fn reply_size(reply: &Reply) -> u64
    ensures { result ≡ reply_size reply.now }
{
    match reply {
        Reply::Held => 1,
        Reply::Missing(_) => 33,
        Reply::Locked(_, _) => 49,
    }
}

fn outcome_size(outcome: &Outcome) -> u64
    ensures { result ≡ outcome_size outcome.now }
{
    match outcome {
        Outcome::Held => 1,
        Outcome::Missing(_, _) => 41,
        Outcome::Locked(_, _, _) => 57,
    }
}

// 32 bytes for each of m hashes and of n more.
fn hash_bytes(m: usize, n: usize) -> u64
    ensures { result ≡ min (32 * (m + n)) (2 ^ 64 - 1) }
{
    (m as u64).saturating_add(n as u64).saturating_mul(32)
}

// 8 bytes for each of n numbers.
fn number_bytes(n: usize) -> u64
    ensures { result ≡ min (8 * n) (2 ^ 64 - 1) }
{
    (n as u64).saturating_mul(8)
}

fn compact_bytes(t: &CompactTx) -> u64
    ensures { result ≡ min (compact_size t.now) (2 ^ 64 - 1) }
{
    hash_bytes(t.inputs.len(), t.outputs.len()).saturating_add(48)
}

fn answered_bytes(a: &Answered) -> u64
    ensures { result ≡ min (answered_size a.now) (2 ^ 64 - 1) }
{
    hash_bytes(a.entry.inputs.len(), a.entry.outputs.len())
        .saturating_add(56)
        .saturating_add(reply_size(&a.reply))
}

fn answered_sizes(es: &[Answered]) -> u64
    ensures { result ≡ min (sum_by answered_size es.now) (2 ^ 64 - 1) }
{
    match es.split_first() {
        None => 0,
        Some((a, rest)) => answered_bytes(a).saturating_add(answered_sizes(rest)),
    }
}

fn compact_sizes(txs: &[CompactTx]) -> u64
    ensures { result ≡ min (sum_by compact_size txs.now) (2 ^ 64 - 1) }
{
    match txs.split_first() {
        None => 0,
        Some((t, rest)) => compact_bytes(t).saturating_add(compact_sizes(rest)),
    }
}

fn outcome_sizes(outcomes: &[Outcome]) -> u64
    ensures { result ≡ min (sum_by outcome_size outcomes.now) (2 ^ 64 - 1) }
{
    match outcomes.split_first() {
        None => 0,
        Some((o, rest)) => outcome_size(o).saturating_add(outcome_sizes(rest)),
    }
}

// The bytes of a record in its journal.
fn record_bytes(r: &Record) -> u64
    ensures { result ≡ min (size_of r.now) (2 ^ 64 - 1) }
{
    match r {
        Record::Genesis { hashes, .. } => hash_bytes(hashes.len(), 0).saturating_add(106),
        Record::Lock { entries, .. } => answered_sizes(entries.as_slice()).saturating_add(42),
        Record::Finish { decisions, .. } => (decisions.len() as u64).saturating_add(42),
        Record::Start { .. } => 98,
        Record::Prepare { txs, .. } => compact_sizes(txs.as_slice()).saturating_add(42),
        Record::Commit { outcomes, .. } => outcome_sizes(outcomes.as_slice()).saturating_add(42),
        Record::Forget { .. } | Record::Discard { .. } | Record::Done { .. } => 34,
        Record::Upgrade { .. } => 26,
        Record::Carry {
            hashes,
            numbers,
            ..
        } => hash_bytes(hashes.len(), 0)
            .saturating_add(number_bytes(numbers.len()))
            .saturating_add(122),
        Record::CarryStart { numbers, .. } => number_bytes(numbers.len()).saturating_add(114),
        Record::Seal { .. } => 34,
    }
}

/// The bytes of a record in its journal, gate and length included. None where they are 2^64 - 1 or more.
pub fn size_of(r: &Record) -> Option<u64>
    ensures { MatchOption result (2 ^ 64 - 1 ≤ size_of r.now) (λ n. n ≡ size_of r.now) }
{
    counted(record_bytes(r))
}

// The bytes of the records of a journal.
fn record_sizes(past: &[Record]) -> u64
    ensures { result ≡ min (sum_by size_of past.now) (2 ^ 64 - 1) }
{
    match past.split_first() {
        None => 0,
        Some((r, rest)) => record_bytes(r).saturating_add(record_sizes(rest)),
    }
}

fn used_bytes(past: &[Record]) -> u64
    ensures { result ≡ min (used_of past.now) (2 ^ 64 - 1) }
{
    record_sizes(past).saturating_add(1)
}

/// The bytes of a disk that a journal takes: its records and the closing gate. None where they are 2^64 - 1 or more.
pub fn used_of(past: &[Record]) -> Option<u64>
    ensures { MatchOption result (2 ^ 64 - 1 ≤ used_of past.now) (λ n. n ≡ used_of past.now) }
{
    counted(used_bytes(past))
}

// Kept for the later records of a part of m entries.
fn behind_lock(m: usize) -> u64
    ensures { result ≡ min (76 + m) (2 ^ 64 - 1) }
{
    (m as u64).saturating_add(76)
}

// Kept for the later records of a batch of n transactions.
fn behind_prepare(n: usize) -> u64
    ensures { result ≡ min (110 + 57 * n) (2 ^ 64 - 1) }
{
    (n as u64).saturating_mul(57).saturating_add(110)
}

// What is kept for a lane's batch in a phase, where it has m entries and n transactions there.
fn room_in(phase: Phase, m: usize, n: usize) -> u64
    ensures { result ≡ min (room_in (phase_in phase) m n) (2 ^ 64 - 1) }
{
    match phase {
        Phase::Idle => 0,
        Phase::InLock => behind_lock(m),
        Phase::InFinish => 34,
        Phase::InPrepare => behind_prepare(n),
        Phase::InCommit => 68,
        Phase::InDiscard => 34,
    }
}

fn lane_bytes(past: &[Record], lane: LaneId) -> u64
    ensures { result ≡ min (lane_room past.now lane) (2 ^ 64 - 1) }
{
    let slot = slot_of(past, lane);
    let batch = BatchId {
        lane,
        number: slot.number,
    };
    let m = lock_of(past, &batch).len();
    let n = txs_of(past, &batch).len();
    room_in(slot.phase, m, n)
}

/// The bytes kept free for a lane's unfinished batch. None where they are 2^64 - 1 or more.
pub fn lane_room(past: &[Record], lane: LaneId) -> Option<u64>
    ensures { MatchOption result (2 ^ 64 - 1 ≤ lane_room past.now lane) (λ n. n ≡ lane_room past.now lane) }
{
    counted(lane_bytes(past, lane))
}

// What is kept for the unfinished batches of the lanes below n.
fn kept_below(past: &[Record], n: u32) -> u64
    ensures { result ≡ min (kept_below past.now n) (2 ^ 64 - 1) }
{
    if n == 0 {
        return 0;
    }
    kept_below(past, n - 1).saturating_add(lane_bytes(past, LaneId(n - 1)))
}

fn kept_bytes(shape: &Shape, past: &[Record]) -> u64
    ensures { result ≡ min (kept_room shape.now past.now) (2 ^ 64 - 1) }
{
    kept_below(past, shape.lane_count())
}

/// The bytes kept free for the unfinished batches of all lanes. None where they are 2^64 - 1 or more.
pub fn kept_room(shape: &Shape, past: &[Record]) -> Option<u64>
    ensures { MatchOption result (2 ^ 64 - 1 ≤ kept_room shape.now past.now)
        (λ n. n ≡ kept_room shape.now past.now) }
{
    counted(kept_bytes(shape, past))
}

fn need_bytes(shape: &Shape, past: &[Record], r: &Record) -> u64
    ensures { result ≡ min (need_of shape.now past.now r.now) (2 ^ 64 - 1) }
{
    let own = record_bytes(r);
    match r {
        Record::Lock { entries, .. } => own
            .saturating_add(behind_lock(entries.len()))
            .saturating_add(kept_bytes(shape, past)),
        Record::Prepare { txs, .. } => own
            .saturating_add(behind_prepare(txs.len()))
            .saturating_add(kept_bytes(shape, past)),
        _ => own,
    }
}

/// What a record needs: a Lock or a Prepare its own bytes, those of its batch's later records and those kept for other
/// batches, every other record its own bytes. None where they are 2^64 - 1 or more.
pub fn need_of(shape: &Shape, past: &[Record], r: &Record) -> Option<u64>
    ensures { MatchOption result (2 ^ 64 - 1 ≤ need_of shape.now past.now r.now)
        (λ n. n ≡ need_of shape.now past.now r.now) }
{
    counted(need_bytes(shape, past, r))
}
