// How many bytes a record takes in its journal.
ghost use Rattle.std.specs.Prelude.{◌≡◌, ◌+◌, ◌*◌, ◌-◌, ◌^◌, ◌≤◌, length, min, sum_by};
ghost use Rattle.cbdc_model.specs.Room.{size_of, compact_size, answered_size, outcome_size, reply_size};

use cbdc_types::{Answered, CompactTx, Outcome, Record, Reply};

fn bytes_of_reply(r: &Reply) -> u64
    ensures { result ≡ reply_size r.now }
{
    match r {
        Reply::Held => 1,
        Reply::Missing(_) => 33,
        Reply::Locked(_, _) => 49,
    }
}

fn bytes_of_outcome(o: &Outcome) -> u64
    ensures { result ≡ outcome_size o.now }
{
    match o {
        Outcome::Held => 1,
        Outcome::Missing(_, _) => 41,
        Outcome::Locked(_, _, _) => 57,
    }
}

// 32 bytes for each of so many hashes, or the greatest number where that is past it.
fn bytes_of_hashes(m: usize, n: usize) -> u64
    ensures { result ≡ min (32 * (m + n)) (2 ^ 64 - 1) }
{
    (m as u64).saturating_add(n as u64).saturating_mul(32)
}

// 8 bytes for each of so many numbers, or the greatest number where that is past it.
fn bytes_of_numbers(n: usize) -> u64
    ensures { result ≡ min (8 * n) (2 ^ 64 - 1) }
{
    (n as u64).saturating_mul(8)
}

fn bytes_of_compact(t: &CompactTx) -> u64
    ensures { result ≡ min (compact_size t.now) (2 ^ 64 - 1) }
{
    bytes_of_hashes(t.inputs.len(), t.outputs.len()).saturating_add(48)
}

fn bytes_of_answered(a: &Answered) -> u64
    ensures { result ≡ min (answered_size a.now) (2 ^ 64 - 1) }
{
    bytes_of_hashes(a.entry.inputs.len(), a.entry.outputs.len())
        .saturating_add(56)
        .saturating_add(bytes_of_reply(&a.reply))
}

fn bytes_of_compacts(txs: &[CompactTx]) -> u64
    ensures { result ≡ min (sum_by compact_size txs.now) (2 ^ 64 - 1) }
{
    let mut total = 0u64;
    'txs: for tx in txs {
        total = total.saturating_add(bytes_of_compact(tx));
    }
    total
}

fn bytes_of_entries(entries: &[Answered]) -> u64
    ensures { result ≡ min (sum_by answered_size entries.now) (2 ^ 64 - 1) }
{
    let mut total = 0u64;
    'entries: for entry in entries {
        total = total.saturating_add(bytes_of_answered(entry));
    }
    total
}

fn bytes_of_outcomes(outcomes: &[Outcome]) -> u64
    ensures { result ≡ min (sum_by outcome_size outcomes.now) (2 ^ 64 - 1) }
{
    let mut total = 0u64;
    'outcomes: for outcome in outcomes {
        total = total.saturating_add(bytes_of_outcome(outcome));
    }
    total
}

/// How many bytes the record takes in its journal: the gate, the length and the body. It is 2^64 - 1 where they are more.
pub fn size_of_record(record: &Record) -> u64
    ensures { result ≡ min (size_of record.now) (2 ^ 64 - 1) }
{
    match record {
        Record::Genesis { header: _, hashes } => {
            bytes_of_hashes(hashes.len(), 0).saturating_add(106)
        }
        Record::Lock {
            stamp: _,
            batch: _,
            entries,
        } => bytes_of_entries(entries.as_slice()).saturating_add(42),
        Record::Finish {
            stamp: _,
            batch: _,
            decisions,
        } => (decisions.len() as u64).saturating_add(42),
        Record::Forget { stamp: _, batch: _ } => 34,
        Record::Start { header: _ } => 98,
        Record::Prepare {
            stamp: _,
            batch: _,
            txs,
        } => bytes_of_compacts(txs.as_slice()).saturating_add(42),
        Record::Commit {
            stamp: _,
            batch: _,
            outcomes,
        } => bytes_of_outcomes(outcomes.as_slice()).saturating_add(42),
        Record::Discard { stamp: _, batch: _ } => 34,
        Record::Done { stamp: _, batch: _ } => 34,
        Record::Upgrade { stamp: _, batch: _ } => 26,
        Record::Carry {
            stamp: _,
            header: _,
            source: _,
            hashes,
            numbers,
        } => bytes_of_hashes(hashes.len(), 0)
            .saturating_add(bytes_of_numbers(numbers.len()))
            .saturating_add(122),
        Record::CarryStart {
            stamp: _,
            header: _,
            source: _,
            numbers,
        } => bytes_of_numbers(numbers.len()).saturating_add(114),
        Record::Seal {
            stamp: _,
            to: _,
            shards: _,
        } => 34,
    }
}
