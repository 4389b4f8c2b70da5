// How long a record's body is, before it is written.
ghost use Rattle.std.specs.Prelude.{◌≡◌, ◌-◌, ◌^◌, length, min};
ghost use Rattle.std.specs.List.{flat_map};
ghost use Rattle.byte_spelling.specs.Spelling.{counted};
ghost use Rattle.byte_fields.specs.Records.{reply_bytes};
ghost use Rattle.record_log.specs.Bodies.{header_bytes, body_of};

use byte_fields::Spell;
use cbdc_types::{Answered, CompactTx, Hash, Header, List, Outcome, Record, Reply};

// What has a length as bytes. It is 2^64 - 1 where they are more.
trait Measure: Spell {
    fn measure(&self) -> u64
        ensures { result ≡ min (length (Self.spelled self.now)) (2 ^ 64 - 1) };
}

impl Measure for Hash {
    fn measure(&self) -> u64 {
        let bytes = self.0.as_slice();
        bytes.len() as u64
    }
}

impl Measure for bool {
    fn measure(&self) -> u64 {
        1
    }
}

fn length_of_items<T: Measure>(items: &[T]) -> u64
    ensures { result ≡ min (length (flat_map T.spelled items.now)) (2 ^ 64 - 1) }
{
    let mut total = 0u64;
    'items: for item in items {
        total = total.saturating_add(item.measure());
    }
    total
}

fn length_of_list<T: Measure>(list: &List<T>) -> u64
    ensures { result ≡ min (length (counted T.spelled list.now)) (2 ^ 64 - 1) }
{
    length_of_items(list.as_slice()).saturating_add(8)
}

impl Measure for CompactTx {
    fn measure(&self) -> u64 {
        self.id
            .measure()
            .saturating_add(length_of_list(&self.inputs))
            .saturating_add(length_of_list(&self.outputs))
    }
}

fn length_of_reply(r: &Reply) -> u64
    ensures { result ≡ min (length (reply_bytes r.now)) (2 ^ 64 - 1) }
{
    match r {
        Reply::Held => 1,
        Reply::Missing(x) => x.measure().saturating_add(1),
        Reply::Locked(x, _) => x.measure().saturating_add(17),
    }
}

impl Measure for Answered {
    fn measure(&self) -> u64 {
        self.entry
            .id
            .measure()
            .saturating_add(length_of_list(&self.entry.inputs))
            .saturating_add(length_of_list(&self.entry.outputs))
            .saturating_add(length_of_reply(&self.reply))
            .saturating_add(8)
    }
}

impl Measure for Outcome {
    fn measure(&self) -> u64 {
        match self {
            Outcome::Held => 1,
            Outcome::Missing(_, x) => x.measure().saturating_add(9),
            Outcome::Locked(_, x, _) => x.measure().saturating_add(25),
        }
    }
}

fn length_of_header(h: &Header) -> u64
    ensures { result ≡ min (length (header_bytes h.now)) (2 ^ 64 - 1) }
{
    h.genesis.measure().saturating_add(48)
}

/// How many bytes the record's body has. It is 2^64 - 1 where they are more.
pub(crate) fn length_of_body(record: &Record) -> u64
    ensures { result ≡ min (length (body_of record.now)) (2 ^ 64 - 1) }
{
    match record {
        Record::Genesis { header, hashes } => length_of_header(header)
            .saturating_add(length_of_list(hashes))
            .saturating_add(9),
        Record::Lock {
            stamp: _,
            batch: _,
            entries,
        } => length_of_list(entries).saturating_add(25),
        Record::Finish {
            stamp: _,
            batch: _,
            decisions,
        } => length_of_list(decisions).saturating_add(25),
        Record::Forget { stamp: _, batch: _ } => 25,
        Record::Start { header } => length_of_header(header).saturating_add(9),
        Record::Prepare {
            stamp: _,
            batch: _,
            txs,
        } => length_of_list(txs).saturating_add(25),
        Record::Commit {
            stamp: _,
            batch: _,
            outcomes,
        } => length_of_list(outcomes).saturating_add(25),
        Record::Discard { stamp: _, batch: _ } => 25,
        Record::Done { stamp: _, batch: _ } => 25,
        // No bytes have these yet.
        Record::Upgrade { .. } => 0,
        Record::Carry { .. } => 0,
        Record::CarryStart { .. } => 0,
        Record::Seal { .. } => 0,
    }
}
