// What a row has made so far: names, nodes, what a lane asked of them, and a shard's tables.
use crate::stores::Store;
use coord_core::CoordCore;
use coord_log::CoordLog;
use gate_journal::Journal;
use mem_devices::{FaultDisk, PlainDisk};
use record_log::RecordLog;
use row_records::{Known, Names, Told, Wrong};
use shard_core::Slots;
use shard_node::ShardNode;
use std::alloc::Global;
use std::mem;

/// A disk, what was opened on it, or lanes without one.
#[derive(Drop)]
pub enum Node {
    /// Nothing is there.
    Gone,
    Plain(PlainDisk),
    Disk(FaultDisk),
    Bodies(Journal<FaultDisk>),
    Records(RecordLog<FaultDisk>),
    Log(CoordLog<FaultDisk>),
    Shard(ShardNode<FaultDisk>),
    Lanes(CoordCore),
}

/// The kind of a record that was asked for, and its node.
pub type Seen = (u8, u32);

/// The tables of a shard, with the room that one had when it was told.
#[derive(Drop)]
pub struct Tables {
    pub store: Store,
    pub room: Option<u64>,
    pub slots: Option<Slots>,
}

/// What a row has made so far.
#[derive(Drop)]
pub struct State {
    pub wrong: Option<Wrong>,
    pub known: Known,
    pub nodes: Vec<Node>,
    pub seen: Vec<Seen>,
    pub kept: Names<String>,
    pub tables: Tables,
}

/// No tables.
fn no_tables() -> Tables {
    Tables {
        store: Store::Gone,
        room: None,
        slots: None,
    }
}

impl State {
    pub fn empty(alloc: Global) -> State {
        State {
            wrong: None,
            known: Known::empty(alloc),
            nodes: Vec::new(alloc),
            seen: Vec::new(alloc),
            kept: Names::new(alloc),
            tables: no_tables(),
        }
    }

    /// Keeps the names of what stood before the first row alone.
    pub fn forget(&mut self) {
        self.known.forget();
        self.nodes.clear();
        self.seen.clear();
        self.kept.forget(0);
        self.tables = no_tables();
    }
}

/// Makes places up to this one.
pub fn make_place(nodes: &mut Vec<Node>, place: u32, told: &mut Told) {
    if place > 98 {
        told.refuse("no node has so great a number here");
        return;
    }
    for _ in nodes.len()..place as usize + 1 {
        told.push(nodes, Node::Gone);
    }
}

// Puts a thing in the place of another.
fn put_at<T: Drop>(all: &mut Vec<T>, place: usize, one: T) {
    if let Some(old) = all.get_mut(place) {
        let _gone = mem::replace(old, one);
    }
}

/// Puts a node in a place that was made.
pub fn put_node(nodes: &mut Vec<Node>, place: u32, node: Node) {
    put_at(nodes, place as usize, node);
}

/// Takes a node out of its place.
pub fn take_node(nodes: &mut Vec<Node>, place: u32) -> Node {
    match nodes.get_mut(place as usize) {
        Some(node) => mem::replace(node, Node::Gone),
        None => Node::Gone,
    }
}
