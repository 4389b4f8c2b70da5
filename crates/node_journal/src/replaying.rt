// What the records of a journal make of a node.
ghost use Rattle.std.specs.Prelude.{◌≢◌, ℕ, List as Items, reverse, IfOk, IfErr};
ghost use Rattle.cbdc_model.specs.Grammar.{IsInGrammar};
ghost use Rattle.record_log.specs.Held.{MayHold, CutsOff};
ghost use Rattle.node_journal.specs.Opening.{IsPlayed, IsUnplayed, IsNoNodeOf};

use cbdc_types::{Header, NodeOpenFault, Record};
use record_grammar::Core;
use record_log::size_of_record;
use std::alloc::Global;

/// The core that these records make, or why they make none.
pub(crate) fn replayed<C: Core>(
    alloc: Global,
    header: &Header,
    records: &[Record],
) -> Result<C, NodeOpenFault>
    requires { MayHold header.now records.now }
    ensures played { IfOk result
        (λ core. IsPlayed C.header C.stands C.kind header.now core (reverse records.now)) }
    ensures unplayed { IfErr result (IsUnplayed C.kind C.other header.now records.now) }
{
    let mut core = match C::begin(alloc, header, &records[0]) {
        Ok(core) => core,
        Err(fault) => return Err(fault),
    };
    let mut at = size_of_record(&records[0]);
    'records: for i in 1..records.len() {
        let next = &records[i];
        match core.admit_known(next) {
            Ok(true) => core.apply(next),
            Ok(false) => return Err(NodeOpenFault::Damaged { at }),
            Err(_) => return Err(NodeOpenFault::Memory),
        }
        at = at.saturating_add(size_of_record(next));
    }
    Ok(core)
}

/// Why a journal that is cut off behind these records is refused: by an earlier one, if one is not next.
pub(crate) fn cut_fault<C: Core>(
    alloc: Global,
    header: &Header,
    records: &[Record],
    at: u64,
) -> NodeOpenFault
    requires { MayHold header.now records.now }
    ensures fault { result ≢ NodeOpenFault.DiskFault }
    ensures refusal { (limit : ℕ) (c : Items ℕ) → CutsOff (IsInGrammar header.now) records.now at c
        → IsNoNodeOf C.kind C.other limit c result }
{
    let core: Result<C, NodeOpenFault> = replayed(alloc, header, records);
    match core {
        Ok(_) => NodeOpenFault::Damaged { at },
        Err(fault) => fault,
    }
}
