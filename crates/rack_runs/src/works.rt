// What a command that resumes does over a ledger.
ghost use Rattle.std.specs.Prelude.{◌≡◌, ◌⊎◌, IfErr, OnOk};
ghost use Rattle.file_runs.specs.Ledgers.{ledger_journals, IsChecked};
ghost use Rattle.rack_runs.specs.Works.{Deed};
ghost use Rattle.rack_runs.specs.Tests.{Test, no_test};

use cbdc_types::Answer;
use file_runs::Ledger;
use lane_driver::LaneFault;
use outside::Disk;
use recovery::ResumedBatch;
use std::alloc::Global;

/// What a command asks for over a ledger whose open batches are at their end.
pub trait Work {
    /// What it comes to where it comes through.
    type Done: Drop;

    /// What is done, by journals.
    ghost deed: { Self → Deed Self.Done };

    /// What its own test says of a ledger, by journals.
    ghost tests: { Self → Test } = { λ _. no_test };

    /// Its own test of the ledger, whose open batches are as an earlier command left them: whether it lets the ledger pass, or why not. At Ok the
    /// relation `passes` of `tests` holds of the ledger's shape and its journals, and where the answer is another one than that memory ran out,
    /// `refuses` holds of them and of the answer.
    fn test<D: Disk>(&self, alloc: Global, ledger: &Ledger<D>) -> Result<(), Answer>
        requires { IsChecked ledger.now }
        ensures passes { OnOk result
            ((tests self.now).passes ledger.now.header.shape (ledger_journals ledger.now)) }
        ensures refuses { IfErr result (λ a. (a ≡ Answer.Memory)
            ⊎ (tests self.now).refuses ledger.now.header.shape (ledger_journals ledger.now) a) };
}

/// A ledger with no open batch, and the batches that an earlier command had left open, in rising order of their lanes.
pub struct Begun<D: Disk> {
    pub ledger: Ledger<D>,
    pub resumed: Vec<ResumedBatch>,
}

/// A ledger behind a work, and what it came to, or the fault of the lane that ended it.
pub struct Worked<D: Disk, T> {
    pub ledger: Ledger<D>,
    pub came: Result<T, LaneFault>,
}
