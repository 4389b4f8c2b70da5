// Whether transactions, records and journals are the same.
ghost use Rattle.std.specs.Prelude.{◌≡◌, ◌↔◌, IsTrue};

use cbdc_types::{CompactTx, Record};

/// Whether two compact transactions are the same.
#[tactic(auto, using(crate::proofs::Deciding::compact_decides))]
pub fn is_compact(a: &CompactTx, b: &CompactTx) -> bool
    ensures { IsTrue result ↔ (a.now ≡ b.now) }
{
    a == b
}

/// Whether two lists of transactions are the same.
#[tactic(auto, using(crate::proofs::Deciding::compacts_decide))]
pub fn are_compacts(ts: &[CompactTx], us: &[CompactTx]) -> bool
    ensures { IsTrue result ↔ (ts.now ≡ us.now) }
{
    ts == us
}

/// Whether two journals are the same.
#[tactic(auto, using(crate::proofs::Deciding::records_decide))]
pub fn is_journal(rs: &[Record], qs: &[Record]) -> bool
    ensures { IsTrue result ↔ (rs.now ≡ qs.now) }
{
    rs == qs
}
