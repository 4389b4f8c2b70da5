// A work with a test of its own, which no command has: nothing, over a ledger of few records.
ghost use Rattle.std.specs.Prelude.{◌≡◌, ◌≤◌, ℕ, length, IfErr, OnOk};
ghost use Rattle.rack_laws.specs.Shown.{OfShown};
ghost use Rattle.rack_runs.specs.Deeds.{no_deed};
ghost use Rattle.rack_runs.specs.Tests.{IsTestRefused};
ghost use Rattle.ledger_rows.specs.Few.{few_records};

use cbdc_types::{Answer, NodeId};
use file_runs::Ledger;
use outside::{Disk, Gate, Rack};
use rack_runs::{Begun, Told, Work, begin_on, end_on};
use std::alloc::Global;
use std::sync::Wait;
use std::thread::Threads;

/// Nothing, over a ledger whose node 0 has at most so many records.
#[derive(Drop)]
struct FewRecords {
    most: u64,
}

impl Work for FewRecords {
    type Done = ();

    ghost deed = { λ _. no_deed };

    ghost tests = { λ w. few_records w.most };

    fn test<D: Disk>(&self, _alloc: Global, ledger: &Ledger<D>) -> Result<(), Answer> {
        let records = ledger.logs[0].records().len() as u64;
        if records <= self.most {
            Ok(())
        } else {
            Err(Answer::NotEmpty(NodeId(0)))
        }
    }
}

/// Brings the open batches of a ledger to their end whose node 0 has at most so many records. One that has more is refused: its disks are back.
pub fn resume_few<W: Wait + Threads + Sync, R: Rack, G: Gate>(
    rt: &W,
    alloc: Global,
    rack: &mut R,
    most: u64,
    gate: &G,
) -> Result<Told<()>, Answer>
where
    R::Disk: Send,
    requires { (n : ℕ) → R.can_take rack.old n }
    ensures passed { OnOk result
        (OfShown R.Disk.Disk (R.held rack.old) (λ K mint submissions E. length (E 0) ≤ most)) }
    ensures refused { IfErr result (λ a. (n : ℕ) → a ≡ Answer.NotEmpty n
        → IsTestRefused R.Disk.Disk (R.held rack.old) (R.held rack.new) (few_records most) a) }
{
    let work = FewRecords { most };
    let Begun { ledger, resumed } = match begin_on(rt, alloc, rack, &work, gate) {
        Ok(begun) => begun,
        Err(fault) => return Err(fault),
    };
    end_on(rack, &work, ledger, resumed, Ok(()))
}
