// All nodes of a ledger.
ghost use Rattle.std.specs.Prelude.{◌≡◌};
ghost use Rattle.lane_waves.specs.Watchers.{IfSaw};
ghost use Rattle.file_runs.specs.Ledgers.{ledger_journals};
ghost use Rattle.file_runs.specs.Looking.{AreLooks};

use cbdc_types::{Header, Shape};
use coord_log::CoordLog;
use lane_waves::Watch;
use outside::Disk;
use shard_node::ShardNode;
use std::marker::Model;
use std::mem;

/// All nodes of a ledger: its coordinators, which come first, and its shards. The header is that of node 0. Contracts see
/// the three, as of a ledger's nodes. Beside them is whether an auditor is to look beside the next wave, or what one saw beside the last one: a
/// list for each node, none empty, each a beginning of its journal.
#[derive(Drop)]
pub struct Ledger<D: Disk> {
    pub header: Header,
    pub logs: Vec<CoordLog<D>>,
    pub shards: Vec<ShardNode<D>>,
    pub watch: Watch,
}

impl<D: Disk> Model for Ledger<D> {
    ghost use Rattle.file_runs.specs.Ledgers.{LedgerOf};
    ghost use Rattle.file_runs.specs.Looking.{IsWatchedLedger};

    ghost Value = { LedgerOf D };

    ghost view = { λ l. record { header = l.header; logs = l.logs.items; shards = l.shards.items } };

    ghost invariant = { λ l. IsWatchedLedger l.header l.logs.items l.shards.items l.watch };
}

impl<D: Disk> Ledger<D> {
    /// The shape of the ledger.
    pub fn shape(&self) -> &Shape
        ensures { result.now ≡ self.now.header.shape }
    {
        &self.header.shape
    }

    /// The ledger, with an auditor beside its next wave if there is to be one.
    pub fn watched(self, watch: bool) -> Ledger<D>
        ensures { result ≡ self }
    {
        let Ledger {
            header,
            logs,
            shards,
            watch: _,
        } = self;
        if watch {
            return Ledger {
                header,
                logs,
                shards,
                watch: Watch::Next,
            };
        }
        Ledger {
            header,
            logs,
            shards,
            watch: Watch::Off,
        }
    }

    // Takes what an auditor saw.
    pub(crate) fn take_looks(&mut self) -> Watch
        ensures same { self.new ≡ self.old }
        ensures looks { IfSaw result (AreLooks self.old.header.shape (ledger_journals self.old)) }
    {
        mem::replace(&mut self.watch, Watch::Off)
    }
}
