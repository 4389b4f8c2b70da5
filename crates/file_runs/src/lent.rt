// The nodes of a ledger, lent to the ports of its lanes.
ghost use Rattle.std.specs.Prelude.{◌≡◌};
ghost use Rattle.cbdc_model.specs.Ranges.{home_of};
ghost use Rattle.node_journal.specs.Nodes.{sight};
ghost use Rattle.coord_log.specs.OpenLanes.{open_lane};
ghost use Rattle.node_ports.specs.Nodes.{sight_at};
ghost use Rattle.file_runs.specs.Ledgers.{node_journals, flights_of, faults_of, opened_of, capacity_of, HaveCheckedJournals, AreStored, AreQuiet};

use crate::driving::{drive_resume, home};
use crate::ledger::Ledger;
use cbdc_types::{Header, LaneId, OpenLane, Shape};
use lane_driver::{LaneFault, Ports};
use lane_waves::Watch;
use ledger_runs::Turns;
use node_ports::{NodeLogs, NodeShards};
use outside::{Disk, Gate};
use recovery::{Plan, ResumedBatch};
use std::alloc::AllocError;
use std::marker::Model;
use std::sync::Wait;

/// All nodes of a ledger behind the ports of its lanes. Contracts see its header and its nodes, which are a ledger's.
#[derive(Drop)]
pub struct LentLedger<'r, W: Wait, D: Disk> {
    header: Header,
    ports: Ports<NodeShards<'r, W, D>, NodeLogs<'r, W, D>>,
}

impl<'r, W: Wait, D: Disk> Model for LentLedger<'r, W, D> {
    ghost use Rattle.file_runs.specs.Ledgers.{LedgerOf, IsLedger};

    ghost Value = { LedgerOf D };

    ghost view = { λ l. record { header = l.header; logs = l.ports.log.logs.items; shards = l.ports.shards.nodes.items } };

    ghost invariant = { λ l. IsLedger l.header l.ports.log.logs.items l.ports.shards.nodes.items };
}

/// Lends the nodes of a ledger to the ports of its lanes.
pub fn lend<'r, W: Wait, D: Disk>(rt: &'r W, ledger: Ledger<D>) -> LentLedger<'r, W, D>
    ensures { result ≡ ledger }
{
    let Ledger {
        header,
        logs,
        shards,
        watch: _,
    } = ledger;
    LentLedger {
        header,
        ports: Ports {
            shards: NodeShards {
                rt,
                lane: LaneId(0),
                first: header.shape.coordinators(),
                nodes: shards,
            },
            log: NodeLogs { rt, logs, at: 0 },
        },
    }
}

impl<'r, W: Wait, D: Disk> LentLedger<'r, W, D> {
    /// The ledger with its nodes back.
    pub fn take_back(self) -> Ledger<D>
        ensures { result ≡ self.entry }
    {
        let LentLedger { header, ports } = self;
        let Ports { shards, log } = ports;
        let NodeShards { nodes, .. } = shards;
        let NodeLogs { logs, .. } = log;
        Ledger {
            header,
            logs,
            shards: nodes,
            watch: Watch::Off,
        }
    }
}

impl<'r, W: Wait, D: Disk> Turns for LentLedger<'r, W, D> {
    ghost shape = { λ l. l.header.shape };

    ghost journals = { λ l. node_journals l.header.shape l.logs l.shards };

    ghost flights = { λ l. flights_of l.header.shape l.logs l.shards };

    ghost faults = { λ l. faults_of l.header.shape l.logs l.shards };

    ghost opened = { λ l. opened_of l.header.shape l.logs l.shards };

    ghost capacity = { λ l. capacity_of l.header.shape l.logs l.shards };

    ghost checked = { λ l. HaveCheckedJournals l.header.shape l.logs l.shards };

    ghost quiet = { λ l. AreQuiet l.logs l.shards };

    ghost opens = { λ l lane. open_lane (sight_at sight l.logs (home_of l.header.shape lane)).seen lane };

    ghost wanting = { λ l lane. Unit {0} };

    ghost holds = { λ l. AreStored D.Disk l.logs l.shards };

    fn shape(&self) -> &Shape {
        &self.header.shape
    }

    fn open_lane(&self, lane: LaneId) -> Result<Option<OpenLane>, AllocError> {
        let at = home(&self.header.shape, lane) as usize;
        self.ports.log.logs[at].open_lane(lane)
    }

    fn take_up<G: Gate>(
        &mut self,
        lane: LaneId,
        unfinished: &OpenLane,
        plan: Plan<'_>,
        gate: &G,
    ) -> Result<ResumedBatch, LaneFault> {
        drive_resume(&self.header, lane, unfinished, plan, &mut self.ports, gate)
    }
}
