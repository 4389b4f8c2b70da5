// Opening nodes beside each other.
ghost use Rattle.std.specs.Prelude.{◌≡◌, ◌≤◌, ◌<◌, ◌+◌, ◌++◌, ◌^◌, ℕ, [], length, reverse, Some, All, IfOk, IfErr, OnErr, MatchOption, slice_index_or, vec_capacity};
ghost use Rattle.outside.specs.Counts.{Rose};
ghost use Rattle.outside.specs.Images.{Tells};
ghost use Rattle.rack_ledgers.specs.Places.{EachFrom, MayReturn, IsOpening, IsOpeningIn};
ghost use Rattle.rack_ledgers.specs.Others.{KeepsOthers, KeepsDisks};
ghost use Rattle.rack_ledgers.specs.Racked.{OfTold, IsDiskBack, IsNodeOpened, ListGoesOn, FailsFirst};
ghost use Rattle.rack_ledgers.specs.Slots.{IsWaitingSlot, SlotResult, SlotResultAt, IsTakenSlot, MayPut, IsDiskIn, faults_in, nodes_in, AreNodesOpen, AreNotRefused, IsFirstNodeRefusal, IsFirstNodeFault, IsListGrown, OpensAt, FailsAt};

use crate::slots::Slot;
use crate::{OnDisk, close_all};
use cbdc_types::{Answer, Header, NodeId};
use outside::{Disk, Rack};
use std::alloc::{AllocError, Global};
use std::thread;
use std::thread::Threads;

// Places for so many nodes, and room for them behind those that are open.
fn room_for<D: Disk, N: OnDisk<D>>(
    alloc: Global,
    nodes: &mut Vec<N>,
    count: u32,
) -> Result<Vec<Slot<D, N>>, AllocError>
    ensures kept { nodes.new.items ≡ nodes.old.items }
    ensures empty { IfOk result (λ v. v.items ≡ []) }
    ensures room { IfOk result (λ v. count ≤ vec_capacity v) }
    ensures behind { IfOk result (λ v. length nodes.new.items + count ≤ vec_capacity nodes.new) }
{
    nodes.reserve(count as usize)?;
    Vec::with_capacity(alloc, count as usize)
}

// Takes the disks of so many nodes from a place on, one after another, up to the first that can't be taken.
fn take_disks<R: Rack, N: OnDisk<R::Disk>>(
    rack: &mut R,
    first: u32,
    count: u32,
    room: Vec<Slot<R::Disk, N>>,
) -> Vec<Slot<R::Disk, N>>
    requires few { first + count < 2 ^ 32 }
    requires room { count ≤ vec_capacity room }
    requires empty { room.items ≡ [] }
    requires waiting { (n : ℕ) → first ≤ n → n < first + count → R.can_take rack.old n }
    ensures some { length result.items ≤ count }
    ensures taken { EachFrom
        (IsTakenSlot R.Disk.Disk (R.held rack.old) (R.count rack.old)) first result.items }
    ensures failed { length result.items < count → Rose
        (R.count rack.old (first + length result.items)) (R.count rack.new (first + length result.items)) }
    ensures untaken { KeepsDisks R.Rack
        (first + length result.items) (first + count) rack.old rack.new }
    ensures out { EachFrom (MayPut R.Disk.Disk N.disk_of (R.can_put rack.new)) first result.items }
    ensures others { KeepsOthers R.Rack first (first + count) rack.old rack.new }
{
    let mut slots = room;
    'places: for place in 0..count {
        let node = NodeId(first + place);
        match rack.take(node) {
            Ok(disk) => slots.push_reserved(Slot::Waiting(node, disk)),
            Err(_) => return slots,
        }
    }
    slots
}

// In how many threads so many disks are opened: in as many as there are processors.
fn thread_count<W: Threads>(rt: &W, disks: usize) -> usize
    ensures { 0 < result }
{
    match thread::available_parallelism(rt) {
        Ok(processors) => disks.min(processors.get()).max(1),
        Err(_) => disks.max(1),
    }
}

// Opens the disks that wait, in as many threads as there are processors.
fn open_slots<W: Threads + Sync, D: Disk + Send, N: OnDisk<D> + Send>(
    rt: &W,
    alloc: Global,
    ledger: &Header,
    slots: &mut [Slot<D, N>],
)
    requires { All IsWaitingSlot slots.old }
    ensures { (i : ℕ) (d : _) → i < length slots.old
        → SlotResult D.Disk N.disk_of N.opens N.fits N.refusals N.refused ledger.now
        (slice_index_or slots.old i d) (slice_index_or slots.new i d) }
{
    let count = thread_count(rt, slots.len());
    thread::for_each_mut(
        rt,
        slots,
        count,
        &|_: usize, slot: &mut Slot<D, N>|
            requires { IsWaitingSlot slot.old }
            ensures { SlotResult
                D.Disk N.disk_of N.opens N.fits N.refusals N.refused ledger.entry.now slot.old slot.new }
        { slot.open(alloc, ledger) },
    );
}

// The same of a list.
fn open_list<W: Threads + Sync, D: Disk + Send, N: OnDisk<D> + Send>(
    rt: &W,
    alloc: Global,
    ledger: &Header,
    slots: Vec<Slot<D, N>>,
) -> Vec<Slot<D, N>>
    requires { All IsWaitingSlot slots.items }
    ensures same { length result.items ≡ length slots.items }
    ensures came { (i : ℕ) (d : _) → i < length slots.items
        → SlotResult D.Disk N.disk_of N.opens N.fits N.refusals N.refused ledger.now
        (slice_index_or slots.items i d) (slice_index_or result.items i d) }
{
    let mut slots = slots;
    open_slots(rt, alloc, ledger, slots.as_mut_slice());
    slots
}

// Takes the disks of so many nodes from a place on, up to the first that can't be taken, and opens them.
fn open_taken<W: Threads + Sync, R: Rack, N: OnDisk<R::Disk> + Send>(
    rt: &W,
    alloc: Global,
    rack: &mut R,
    ledger: &Header,
    first: u32,
    count: u32,
    room: Vec<Slot<R::Disk, N>>,
) -> Vec<Slot<R::Disk, N>>
where
    R::Disk: Send,
    requires few { first + count < 2 ^ 32 }
    requires room { count ≤ vec_capacity room }
    requires empty { room.items ≡ [] }
    requires waiting { (n : ℕ) → first ≤ n → n < first + count → R.can_take rack.old n }
    ensures some { length result.items ≤ count }
    ensures came { EachFrom (SlotResultAt R.Disk.Disk N.disk_of N.opens N.fits N.refusals N.refused ledger.now
        (R.held rack.old) (R.count rack.old)) first result.items }
    ensures failed { length result.items < count → Rose
        (R.count rack.old (first + length result.items)) (R.count rack.new (first + length result.items)) }
    ensures untaken { KeepsDisks R.Rack
        (first + length result.items) (first + count) rack.old rack.new }
    ensures out { EachFrom (MayPut R.Disk.Disk N.disk_of (R.can_put rack.new)) first result.items }
    ensures others { KeepsOthers R.Rack first (first + count) rack.old rack.new }
{
    let slots = take_disks(rack, first, count, room);
    open_list(rt, alloc, ledger, slots)
}

// The refusal of the first node that was refused, if there is one.
fn first_refusal<D: Disk, N: OnDisk<D>>(slots: &[Slot<D, N>]) -> Option<Answer>
    ensures { MatchOption result (AreNotRefused slots.now) (IsFirstNodeRefusal slots.now) }
{
    'slots: for slot in slots {
        if let Some(fault) = slot.refusal() {
            return Some(fault);
        }
    }
    None
}

// Why the first of so many nodes from a place on is not open, if there is one: it was refused, or its disk could not be taken.
fn first_fault<D: Disk, N: OnDisk<D>>(
    first: u32,
    count: u32,
    slots: &[Slot<D, N>],
) -> Option<Answer>
    requires { first + count < 2 ^ 32 }
    ensures { MatchOption result (AreNotRefused slots.now
        × (count ≤ length slots.now)) (IsFirstNodeFault first count slots.now) }
{
    match first_refusal(slots) {
        Some(fault) => Some(fault),
        None if slots.len() < count as usize => {
            Some(Answer::DiskFault(NodeId(first + slots.len() as u32)))
        }
        None => None,
    }
}

// Moves nodes from the last place to the first behind others.
fn move_onto<D: Disk, N: OnDisk<D>>(slots: Vec<Slot<D, N>>, nodes: Vec<N>) -> Vec<N>
    requires opened { AreNodesOpen (reverse slots.items) }
    requires room { length nodes.items + length slots.items ≤ vec_capacity nodes }
    ensures { result.items ≡ nodes.items ++ nodes_in (reverse slots.items) }
{
    let mut slots = slots;
    let mut nodes = nodes;
    'slots: while let Some(slot) = slots.pop() {
        match slot {
            Slot::Opened(node) => nodes.push_reserved(node),
            _other => unreachable!(),
        }
    }
    slots.destroy_empty();
    nodes
}

// The nodes in order, behind others.
fn nodes_onto<D: Disk, N: OnDisk<D>>(slots: Vec<Slot<D, N>>, nodes: Vec<N>) -> Vec<N>
    requires opened { AreNodesOpen slots.items }
    requires room { length nodes.items + length slots.items ≤ vec_capacity nodes }
    ensures { result.items ≡ nodes.items ++ nodes_in slots.items }
{
    let mut slots = slots;
    slots.reverse();
    move_onto(slots, nodes)
}

// Puts all disks back, the first of which has this place.
fn put_back<R: Rack, N: OnDisk<R::Disk>>(rack: &mut R, first: u32, slots: Vec<Slot<R::Disk, N>>)
    requires few { first + length slots.items < 2 ^ 32 }
    requires out { EachFrom (MayPut R.Disk.Disk N.disk_of (R.can_put rack.old)) first slots.items }
    ensures closed { EachFrom (λ n s. OfTold (R.held rack.new n) (IsDiskIn N.disk_of s)) first slots.items }
    ensures counted { EachFrom
        (λ n s. faults_in R.Disk.Disk N.disk_of s ≤ R.count rack.new n) first slots.items }
    ensures back { (n : ℕ) → first ≤ n → n < first + length slots.items → R.can_take rack.new n }
    ensures others { KeepsOthers R.Rack first (first + length slots.items) rack.old rack.new }
{
    let mut slots = slots;
    'slots: while let Some(slot) = slots.pop() {
        rack.put(NodeId(first + slots.len() as u32), slot.into_disk());
    }
    slots.destroy_empty();
}

// Opens so many nodes from a place on, beside each other, behind others. After a fault their disks are back, and the others are as they were.
fn open_behind<W: Threads + Sync, R: Rack, N: OnDisk<R::Disk> + Send>(
    rt: &W,
    alloc: Global,
    rack: &mut R,
    ledger: &Header,
    first: u32,
    count: u32,
    nodes: Vec<N>,
) -> Result<Vec<N>, (Vec<N>, Answer)>
where
    R::Disk: Send,
    requires few { first + count < 2 ^ 32 }
    requires some { 0 < count }
    requires waiting { (n : ℕ) → first ≤ n → n < first + count → R.can_take rack.old n }
    ensures opened { IfOk result (λ v. IsListGrown (λ n x. OpensAt R.Disk.Disk N.disk_of
        N.opens N.fits N.refusals N.refused ledger.now (R.held rack.old) (R.count rack.old) n x × MayReturn
        (λ y. R.Disk.count (N.disk_of y)) (R.can_put rack.new) n x) first count nodes.items v.items) }
    ensures same { IfErr result (λ e. e.0.items ≡ nodes.items) }
    ensures refusal { IfErr result (λ e. FailsFirst
        (OpensAt R.Disk.Disk N.disk_of N.opens N.fits N.refusals N.refused ledger.now (R.held rack.old)
        (R.count rack.old)) (FailsAt R.Disk.Disk N.disk_of N.opens N.fits N.refusals N.refused ledger.now
        (R.held rack.old) (R.count rack.old) (R.count rack.new)) first (first + count) e.1) }
    ensures held { OnErr result ((n : ℕ) → first ≤ n → n < first + count → IsDiskBack R.Disk.Disk
        (R.count rack.old n) (R.count rack.new n) (R.held rack.old n) (R.held rack.new n)) }
    ensures back { OnErr result ((n : ℕ) → first ≤ n → n < first + count → R.can_take rack.new n) }
    ensures others { KeepsOthers R.Rack first (first + count) rack.old rack.new }
{
    let mut nodes = nodes;
    let room = match room_for(alloc, &mut nodes, count) {
        Ok(room) => room,
        Err(_) => return Err((nodes, Answer::Memory)),
    };
    let slots = open_taken(rt, alloc, rack, ledger, first, count, room);
    match first_fault(first, count, slots.as_slice()) {
        None => Ok(nodes_onto(slots, nodes)),
        Some(fault) => {
            put_back(rack, first, slots);
            Err((nodes, fault))
        }
    }
}

/// Opens the nodes of the ledger with this header from a place on, behind those that are open already, in as many threads as there are
/// processors. After a fault the disks of all these nodes are back.
pub(crate) fn open_at_once<W: Threads + Sync, R: Rack, N: OnDisk<R::Disk> + Send>(
    rt: &W,
    alloc: Global,
    rack: &mut R,
    ledger: &Header,
    first: u32,
    count: u32,
    nodes: Vec<N>,
) -> Result<Vec<N>, Answer>
where
    R::Disk: Send,
    requires few { first + count < 2 ^ 32 }
    requires some { length nodes.items ≤ count }
    requires out { EachFrom
        (MayReturn (λ n. R.Disk.count (N.disk_of n)) (R.can_put rack.old)) first nodes.items }
    requires waiting { (n : ℕ) → first + length nodes.items ≤ n → n < first + count → R.can_take rack.old n }
    // Those that were open already come first, and each of the others is the node that was asked for and stands for what was told of its disk.
    ensures opened { IfOk result (λ v. ListGoesOn
        (λ n x. (N.fits n (Some ledger.now) x × (R.count rack.old n ≤ R.Disk.count (N.disk_of x)))
        × OfTold (R.held rack.old n) (λ was. IsNodeOpened R.Disk.Disk N.disk_of N.opens was x))
        first nodes.items v.items) }

    // Why the first that can't be opened is not, and the disks are back.
    ensures refusal { IfErr result
        (FailsFirst (λ n x. (N.fits n (Some ledger.now) x × (R.count rack.old n ≤ R.Disk.count (N.disk_of x)))
        × OfTold (R.held rack.old n) (λ was. IsNodeOpened R.Disk.Disk N.disk_of N.opens was x)) (λ n e.
        (N.refusals e × IsOpening n (R.count rack.old n) (R.count rack.new n) e) × OfTold (R.held rack.old n)
        (λ was. Tells (R.Disk.content was) (λ c. N.refused n (Some ledger.now) (R.Disk.limit was) c e)))
        (first + length nodes.items) (first + count)) }
    ensures closed { OnErr result
        (EachFrom (λ n x. OfTold (R.held rack.new n) (λ now. now ≡ N.disk_of x)) first nodes.items) }
    ensures held { OnErr result ((n : ℕ) → first + length nodes.items ≤ n → n < first + count → IsDiskBack
        R.Disk.Disk (R.count rack.old n) (R.count rack.new n) (R.held rack.old n) (R.held rack.new n)) }

    ensures all { IfOk result (λ v. length v.items ≡ count) }
    ensures out { IfOk result
        (λ v. EachFrom (MayReturn (λ n. R.Disk.count (N.disk_of n)) (R.can_put rack.new)) first v.items) }
    ensures back { OnErr result ((n : ℕ) → first ≤ n → n < first + count → R.can_take rack.new n) }
    ensures fault { IfErr result (IsOpeningIn first (first + count) (R.count rack.old) (R.count rack.new)) }
    ensures others { KeepsOthers R.Rack first (first + count) rack.old rack.new }
{
    let from = nodes.len() as u32;
    if from == count {
        return Ok(nodes);
    }
    match open_behind(rt, alloc, rack, ledger, first + from, count - from, nodes) {
        Ok(nodes) => Ok(nodes),
        Err((nodes, fault)) => {
            close_all(rack, first, nodes);
            Err(fault)
        }
    }
}
