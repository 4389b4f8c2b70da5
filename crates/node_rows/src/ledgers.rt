// A lane run over the nodes of a ledger in memory, where it may be run: the lane rests at them.
ghost use Rattle.std.specs.Prelude.{◌≡◌, ◌↔◌, ◌≤◌, ◌==◌, if◌then◌else◌, reverse, IsTrue, IfOk, IfSome, OnOk, All};
ghost use Rattle.cbdc_model.specs.Ranges.{home_of};
ghost use Rattle.cbdc_model.specs.Grammar.{HasSize, IsCompact};
ghost use Rattle.node_rows.specs.Resting.{number_of_lane, RestsAt, AllRest, LogRests, MayRunOver};

use crate::state::Seen;
use cbdc_types::{BatchId, CompactTx, LaneId, Record, Shape, Stamp};
use coord_core::LanePhase;
use coord_log::CoordLog;
use lane_driver::{LaneFault, LaneReport, Ports, SliceSource, run_batch, run_lane};
use mem_devices::FaultDisk;
use node_ports::{NodeLogs, NodeShards};
use outside::{Gate, Point, When};
use record_grammar::is_compact;
use row_records::{Told, Wrong};
use same_records::{Phase, last_stamp, slot_of, slot_stamp};
use shard_node::ShardNode;
use std::alloc::{AllocError, Global};
use std::cell::RefCell;
use std::sync::Wait;

fn copy_of(x: &Record) -> Result<Record, AllocError>
    ensures { IfOk result (λ y. y ≡ x.now) }
{
    x.clone()
}

// Copies of records.
fn copied(alloc: Global, records: &[Record]) -> Result<Vec<Record>, AllocError>
    ensures { IfOk result (λ v. v.items ≡ records.now) }
{
    let mut all = Vec::with_capacity(alloc, records.len())?;
    for own in records {
        all.push(copy_of(own)?)?;
    }
    Ok(all)
}

// Copies of records, the newest first.
fn newest_first(alloc: Global, records: &[Record]) -> Result<Vec<Record>, AllocError>
    ensures { IfOk result (λ v. v.items ≡ reverse records.now) }
{
    let mut all = copied(alloc, records)?;
    all.reverse();
    Ok(all)
}

// The number of a lane's batch, 0 of another lane's.
fn own_number(lane: LaneId, batch: &BatchId) -> u64
    ensures { result ≡ (if batch.now.lane == lane then batch.now.number else 0) }
{
    if batch.lane == lane { batch.number } else { 0 }
}

fn number_in(lane: LaneId, r: &Record) -> u64
    ensures { result ≡ number_of_lane lane r.now }
{
    match r {
        Record::Genesis { .. } => 0,
        Record::Start { .. } => 0,
        Record::Lock { batch, .. } => own_number(lane, batch),
        Record::Finish { batch, .. } => own_number(lane, batch),
        Record::Forget { batch, .. } => own_number(lane, batch),
        Record::Prepare { batch, .. } => own_number(lane, batch),
        Record::Commit { batch, .. } => own_number(lane, batch),
        Record::Discard { batch, .. } => own_number(lane, batch),
        Record::Done { batch, .. } => own_number(lane, batch),
        Record::Upgrade { .. } => 0,
        Record::Carry { .. } => 0,
        Record::CarryStart { .. } => 0,
        Record::Seal { .. } => 0,
    }
}

// Whether no record is of a later batch of the lane.
fn are_up_to(lane: LaneId, last: u64, records: &[Record]) -> bool
    ensures { IsTrue result ↔ All (λ r. number_of_lane lane r ≤ last) records.now }
{
    records.iter().all(|r| number_in(lane, r) <= last)
}

// The number of the lane's last batch, where the lane rests at its coordinator.
fn log_rests(shape: &Shape, lane: LaneId, log: &CoordLog<FaultDisk>) -> Option<u64>
    ensures { IfSome result (λ k. LogRests shape.now lane k log.now) }
{
    let header = *log.header();
    if header.shape != *shape || lane.0 >= shape.lane_count() {
        return None;
    }
    if header.node.0 != lane.0 / shape.lanes() || header.node.0 >= shape.coordinators() {
        return None;
    }
    match log.phase(lane) {
        LanePhase::Idle(last) if are_up_to(lane, last, log.records()) => Some(last),
        _ => None,
    }
}

// Whether the lane rests at a shard.
fn shard_rests(
    alloc: Global,
    shape: &Shape,
    lane: LaneId,
    last: u64,
    stamp: Stamp,
    place: u64,
    shard: &ShardNode<FaultDisk>,
) -> Result<bool, AllocError>
    ensures { IfOk result (λ yes. IsTrue yes → RestsAt shape.now lane last stamp place shard.now) }
{
    let header = *shard.header();
    let past = newest_first(alloc, shard.records())?;
    let slot = slot_of(&past, lane);
    Ok(
        header.shape == *shape
            && u64::from(header.node.0) == u64::from(shape.coordinators()).saturating_add(place)
            && slot.phase == Phase::Idle
            && slot.number <= last
            && slot_stamp(&past, lane).0 <= stamp.0
            && are_up_to(lane, last, &past),
    )
}

// Whether the lane rests at all shards, of which the first has this place.
fn shards_rest(
    alloc: Global,
    shape: &Shape,
    lane: LaneId,
    last: u64,
    stamp: Stamp,
    place: u64,
    shards: &[ShardNode<FaultDisk>],
) -> Result<bool, AllocError>
    ensures { IfOk result (λ yes. IsTrue yes → AllRest shape.now lane last stamp place shards.now) }
{
    let Some((first, others)) = shards.split_first() else {
        return Ok(true);
    };
    if place > 64 || !shard_rests(alloc, shape, lane, last, stamp, place, first)? {
        return Ok(false);
    }
    shards_rest(alloc, shape, lane, last, stamp, place + 1, others)
}

// Nothing where a lane may be run over these nodes, its coordinator at this place.
fn check_rest(
    alloc: Global,
    shape: &Shape,
    lane: LaneId,
    at: u32,
    logs: &[CoordLog<FaultDisk>],
    shards: &[ShardNode<FaultDisk>],
) -> Result<(), Wrong>
    ensures { OnOk result (MayRunOver shape.now lane at logs.now shards.now) }
{
    let Some(log) = logs.get(at as usize) else {
        return Err(Wrong::Line("no such lane"));
    };
    let Some(last) = log_rests(shape, lane, log) else {
        return Err(Wrong::Line("the lane is not idle at its coordinator"));
    };
    let past = newest_first(alloc, log.records())?;
    if shards.len() != shape.shards() as usize {
        return Err(Wrong::Line("another number of shards"));
    }
    if !shards_rest(alloc, shape, lane, last, last_stamp(&past), 0, shards)? {
        return Err(Wrong::Line("the lane does not rest at its shards"));
    }
    Ok(())
}

fn are_compact(txs: &[CompactTx]) -> bool
    ensures { IsTrue result ↔ All IsCompact txs.now }
{
    txs.iter().all(|t| is_compact(t))
}

// What was asked of each node, in order, and whether some of it is left out because memory ran out.
#[derive(Drop)]
struct Notes {
    seen: Vec<Seen>,
    is_short: bool,
}

impl Notes {
    fn put(&mut self, own: Seen) {
        if self.seen.push(own).is_err() {
            self.is_short = true;
        }
    }
}

// A gate that notes what is asked.
#[derive(Drop)]
struct Noting {
    notes: RefCell<Notes>,
}

impl Noting {
    fn new(alloc: Global) -> Noting {
        Noting {
            notes: RefCell::new(Notes {
                seen: Vec::new(alloc),
                is_short: false,
            }),
        }
    }

    // What was noted.
    fn seen(self, told: &mut Told) -> Vec<Seen> {
        let Noting { notes } = self;
        let Notes { seen, is_short } = notes.into_inner();
        if is_short {
            told.no_memory();
        }
        seen
    }
}

impl Gate for Noting {
    fn pass<W: Wait>(&self, _rt: &W, point: &Point) {
        if point.when == When::Inside {
            if let Ok(mut notes) = self.notes.try_borrow_mut() {
                notes.put((point.kind, point.node.0));
            }
        }
    }
}

/// The nodes of a ledger, lent to a lane.
type Lent<'r, W> = Ports<NodeShards<'r, W, FaultDisk>, NodeLogs<'r, W, FaultDisk>>;

// Runs all transactions of a lane.
fn run_all<W: Wait>(
    alloc: Global,
    shape: &Shape,
    lane: LaneId,
    txs: &[CompactTx],
    ports: &mut Lent<W>,
    repeats: u32,
    gate: &Noting,
) -> Result<LaneReport, LaneFault>
    requires place { ports.old.log.at ≡ home_of shape.now lane }
    requires rests { MayRunOver
        shape.now lane ports.old.log.at ports.old.log.logs.items ports.old.shards.nodes.items }
    requires limits { All IsCompact txs.now }
{
    let mut source = SliceSource::new(txs);
    run_lane(alloc, shape, lane, &mut source, ports, repeats, gate)
}

// Runs one batch of a lane.
fn run_one<W: Wait>(
    alloc: Global,
    shape: &Shape,
    lane: LaneId,
    txs: &[CompactTx],
    ports: &mut Lent<W>,
    repeats: u32,
    gate: &Noting,
) -> Result<LaneReport, LaneFault>
    requires place { ports.old.log.at ≡ home_of shape.now lane }
    requires rests { MayRunOver
        shape.now lane ports.old.log.at ports.old.log.logs.items ports.old.shards.nodes.items }
    requires size { HasSize shape.now txs.now }
    requires limits { All IsCompact txs.now }
{
    run_batch(alloc, shape, lane, txs, ports, repeats, gate)
}

/// The transactions of a lane, and how it runs them: all of them or one batch, and how often each shard call is made again.
#[derive(Clone, Copy)]
pub struct Plan<'t> {
    pub lane: LaneId,
    pub txs: &'t [CompactTx],
    pub is_whole: bool,
    pub repeats: u32,
}

// Tells a line for each batch, its lane, its number and its outcomes, or where the lane stopped, and why.
fn tell_came(told: &mut Told, came: &Result<LaneReport, LaneFault>) {
    match came {
        Ok(report) => {
            for done in report.batches.as_slice() {
                told.batch(&done.batch);
                for outcome in done.outcomes.as_slice() {
                    told.outcome(outcome);
                }
                told.line();
            }
        }
        Err(fault) => told.shown(fault),
    }
}

// Runs a lane over ports, and tells what it came to.
fn run_ports<W: Wait>(
    alloc: Global,
    shape: &Shape,
    plan: &Plan,
    ports: &mut Lent<W>,
    gate: &Noting,
    told: &mut Told,
)
    requires place { ports.old.log.at ≡ home_of shape.now plan.now.lane }
    requires rests { MayRunOver
        shape.now plan.now.lane ports.old.log.at ports.old.log.logs.items ports.old.shards.nodes.items }
{
    let (lane, txs, repeats) = (plan.lane, plan.txs, plan.repeats);
    if !are_compact(txs) {
        told.refuse("a transaction with more hashes than it may have");
    } else if plan.is_whole {
        tell_came(
            told,
            &run_all(alloc, shape, lane, txs, ports, repeats, gate),
        );
    } else if txs.is_empty() || txs.len() > shape.batch() as usize {
        told.refuse("no batch");
    } else {
        tell_came(
            told,
            &run_one(alloc, shape, lane, txs, ports, repeats, gate),
        );
    }
}

/// The open nodes, coordinators and shards apart.
#[derive(Drop)]
pub struct Apart {
    pub logs: Vec<CoordLog<FaultDisk>>,
    pub shards: Vec<ShardNode<FaultDisk>>,
}

// Runs a lane over nodes at which it rests, tells what it came to, and notes what it asks.
fn run_rested<W: Wait>(
    rt: &W,
    alloc: Global,
    shape: &Shape,
    plan: &Plan,
    at: u32,
    nodes: Apart,
    seen: &mut Vec<Seen>,
    told: &mut Told,
) -> Apart
    requires place { at ≡ home_of shape.now plan.now.lane }
    requires rests { MayRunOver shape.now plan.now.lane at nodes.logs.items nodes.shards.items }
{
    let Apart { logs, shards } = nodes;
    let gate = Noting::new(alloc);
    let mut ports = Ports {
        shards: NodeShards {
            rt,
            lane: plan.lane,
            first: shape.coordinators(),
            nodes: shards,
        },
        log: NodeLogs { rt, logs, at },
    };
    run_ports(alloc, shape, plan, &mut ports, &gate, told);
    *seen = gate.seen(told);
    let Ports { shards, log } = ports;
    let NodeShards { nodes, .. } = shards;
    let NodeLogs { logs, .. } = log;
    Apart {
        logs,
        shards: nodes,
    }
}

/// Runs a lane over nodes where it rests at them.
pub fn run_over<W: Wait>(
    rt: &W,
    alloc: Global,
    shape: &Shape,
    plan: &Plan,
    nodes: Apart,
    seen: &mut Vec<Seen>,
    told: &mut Told,
) -> Apart {
    let lane = plan.lane;
    let at = lane.0 / shape.lanes();
    match check_rest(alloc, shape, lane, at, &nodes.logs, &nodes.shards) {
        Ok(()) => run_rested(rt, alloc, shape, plan, at, nodes, seen, told),
        Err(wrong) => {
            told.fail(wrong);
            nodes
        }
    }
}
