// Runs over devices in memory: the devices of a row, and what a run over them left.
ghost use Rattle.std.specs.Prelude.{IfSome};
ghost use Rattle.mem_devices.specs.Racks.{NoneOut};

use crate::disks::DiskState;
use crate::noting::{NotingGate, NotingInbox, NotingRack};
use crate::ordering::PointOrder;
use crate::state::State;
use crate::words::copy_of;
use cbdc_types::NodeId;
use mem_devices::{Choice, FaultDisk, MemInbox, MemRack, MemSink};
use outside::Point;
use row_records::{Told, copies};
use std::str;

/// What a run left: its status, the points that it passed, the files that it read, the nodes whose disks it took, its output and the rack.
#[derive(Drop)]
pub struct Ran {
    pub status: u64,
    pub points: Vec<Point>,
    pub files: Vec<String>,
    pub nodes: Vec<NodeId>,
    pub out: MemSink,
    pub rack: MemRack<FaultDisk>,
}

/// What a crash leaves of what was not synced: at most so many bytes, with this byte in each place, or the one that a read gives.
#[derive(Clone, Copy, Drop)]
pub struct Left {
    pub len: usize,
    pub byte: Option<u8>,
}

impl Ran {
    /// What was printed.
    pub fn text(&self, told: &mut Told) -> &str {
        text_in(self.out.taken(), told)
    }

    /// The disk of a node.
    pub fn disk(&self, node: u32, told: &mut Told) -> Option<&FaultDisk> {
        let own = self.rack.disk(NodeId(node));
        if own.is_none() {
            told.refuse("a disk is out");
        }
        own
    }

    /// The bytes of a node's disk as they are.
    pub fn bytes(&self, node: u32, told: &mut Told) -> Vec<u8> {
        match self.disk(node, told) {
            Some(disk) => copy_of(disk.bytes(), told),
            None => Vec::new(told.alloc),
        }
    }

    /// The bytes of a node's disk behind a crash.
    pub fn crashed(&self, node: u32, left: Left, told: &mut Told) -> Vec<u8> {
        match self.disk(node, told) {
            Some(disk) => left_on(disk, left, told),
            None => Vec::new(told.alloc),
        }
    }
}

/// Printed bytes as a text.
pub fn text_in<'a>(bytes: &'a [u8], told: &mut Told) -> &'a str {
    match str::from_utf8(bytes) {
        Ok(text) => text,
        Err(_) => {
            told.refuse("what was printed is no text");
            ""
        }
    }
}

// The bytes of a disk behind a crash.
fn left_on(disk: &FaultDisk, left: Left, told: &mut Told) -> Vec<u8> {
    let choice = choice(left, disk.bytes().len(), told);
    match disk.crash(&choice) {
        Ok(own) => copy_of(own.bytes(), told),
        Err(_) => {
            told.no_memory();
            Vec::new(told.alloc)
        }
    }
}

// What a crash leaves of a disk of so many bytes.
fn choice(left: Left, many: usize, told: &mut Told) -> Choice {
    let mut bytes = Vec::new(told.alloc);
    if let Some(byte) = left.byte {
        for _ in 0..many {
            told.push(&mut bytes, byte);
        }
    }
    Choice {
        len: left.len,
        bytes,
    }
}

/// The words, the program's name first.
pub fn owned(words: &[&str], told: &mut Told) -> Vec<String> {
    let alloc = told.alloc;
    let mut all = Vec::new(alloc);
    for word in words {
        if let Some(own) = told.made(String::from_str(alloc, word)) {
            told.push(&mut all, own);
        }
    }
    all
}

// The calls of a disk that fail.
fn fails(disk: &DiskState, told: &mut Told) -> Vec<u64> {
    let mut all = Vec::new(told.alloc);
    for call in disk.first_fault..disk.first_fault.saturating_add(disk.faults) {
        told.push(&mut all, call);
    }
    all
}

// How many writes and syncs a disk keeps.
const CALLS: usize = 1_000_000;

fn device(disk: &DiskState, told: &mut Told) -> Option<FaultDisk> {
    if disk.bytes.len() > disk.capacity {
        told.refuse("a disk has more bytes than its capacity");
        return None;
    }
    let fails = fails(disk, told);
    told.made(FaultDisk::new(told.alloc, &disk.bytes, disk.capacity, fails, CALLS))
}

/// The disks of a row, in a rack.
pub fn rack_of(disks: &[DiskState], told: &mut Told) -> Option<NotingRack<MemRack<FaultDisk>>>
    ensures { IfSome result (λ r. NoneOut r.disks) }
{
    let alloc = told.alloc;
    let mut all = Vec::new(alloc);
    for disk in disks {
        if let Some(own) = device(disk, told) {
            told.push(&mut all, own);
        }
    }
    match MemRack::new(alloc, all) {
        Ok(disks) => Some(NotingRack {
            disks,
            nodes: Vec::new(alloc),
        }),
        Err(_) => {
            told.no_memory();
            None
        }
    }
}

/// The files that a row has made.
pub fn files_of(state: &State, told: &mut Told) -> MemInbox {
    let alloc = told.alloc;
    MemInbox::new(
        told.made(copies(alloc, &state.files))
            .unwrap_or(Vec::new(alloc)),
    )
}

/// The same, noting the names that are read.
pub fn inbox_of(state: &State, told: &mut Told) -> NotingInbox {
    NotingInbox {
        files: files_of(state, told),
        names: Vec::new(told.alloc),
        alloc: told.alloc,
    }
}

/// The gate that holds a row's points in their order.
pub fn gate_of(state: &State, told: &mut Told) -> NotingGate {
    let alloc = told.alloc;
    let points = told.made(state.order.clone()).unwrap_or(Vec::new(alloc));
    let order = PointOrder::new(points, state.holding.turns);
    NotingGate::new(alloc, order, state.holding.is_slow)
}

/// The output that takes as many bytes as a row says.
pub fn output_of(state: &State, told: &mut Told) -> Option<MemSink> {
    let alloc = told.alloc;
    told.made(MemSink::new(alloc, state.room, Vec::new(alloc)))
}

/// A run that has ended, by its status and its devices; the points of its order must have come in it.
pub fn ended(
    status: u8,
    gate: NotingGate,
    files: Vec<String>,
    rack: NotingRack<MemRack<FaultDisk>>,
    out: MemSink,
    told: &mut Told,
) -> Ran {
    if !gate.is_kept() {
        told.check_same("the points in this order", "points out of order");
    }
    Ran {
        status: u64::from(status),
        points: gate.into_points(told),
        files,
        nodes: rack.nodes,
        out,
        rack: rack.disks,
    }
}
