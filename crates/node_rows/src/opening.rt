// Opening what stands on a disk.
use crate::disks::{CALLS, NO_FAULTS, disk_in, put_disk, put_record};
use crate::state::{Node, make_place, put_node, take_node};
use cbdc_types::{Record, Shape};
use coord_log::CoordLog;
use gate_journal::{Bodies, Journal};
use mem_devices::FaultDisk;
use record_log::open_records;
use row_records::{Known, Told, rows_in};
use shard_node::ShardNode;

// Tells how many bodies there are, and of each its digits, or how many bytes it has.
fn tell_bodies(told: &mut Told, bodies: &Bodies) {
    told.named("bodies", bodies.len() as u128);
    for i in 0..bodies.len() {
        let body = bodies.body(i);
        if body.is_empty() || body.len() > 64 {
            told.named("bytes", body.len() as u128);
        } else {
            told.digits(body);
        }
    }
}

fn format(disk: FaultDisk, told: &mut Told) -> Node {
    match Journal::format(told.alloc, disk) {
        Ok(journal) => {
            told.word("done");
            Node::Bodies(journal)
        }
        Err((disk, fault)) => {
            told.shown(&fault);
            Node::Disk(disk)
        }
    }
}

fn open_bodies(disk: FaultDisk, told: &mut Told) -> Node {
    match Journal::open(told.alloc, disk) {
        Ok((journal, bodies)) => {
            tell_bodies(told, &bodies);
            Node::Bodies(journal)
        }
        Err((disk, fault)) => {
            told.shown(&fault);
            Node::Disk(disk)
        }
    }
}

// With memory for one record more, of up to a hundred bytes.
fn open_log(disk: FaultDisk, told: &mut Told) -> Node {
    match open_records(told.alloc, disk) {
        Ok(found) => {
            let mut log = found;
            told.made(log.reserve(1, 100));
            told.named("records", log.records.len() as u128);
            Node::Records(log)
        }
        Err((disk, refusal)) => {
            told.shown(&refusal);
            Node::Disk(disk)
        }
    }
}

fn open_coordinator(disk: FaultDisk, told: &mut Told) -> Node {
    match CoordLog::open(told.alloc, disk) {
        Ok(log) => {
            told.named("records", log.records().len() as u128);
            Node::Log(log)
        }
        Err((disk, fault)) => {
            told.shown(&fault);
            Node::Disk(disk)
        }
    }
}

fn open_shard(disk: FaultDisk, told: &mut Told) -> Node {
    match ShardNode::open(told.alloc, disk) {
        Ok(shard) => {
            told.named("records", shard.records().len() as u128);
            Node::Shard(shard)
        }
        Err((disk, fault)) => {
            told.shown(&fault);
            Node::Disk(disk)
        }
    }
}

fn opened(disk: FaultDisk, kind: &str, told: &mut Told) -> Node {
    match kind {
        "" => format(disk, told),
        "bodies" => open_bodies(disk, told),
        "records" => open_log(disk, told),
        "coordinator" => open_coordinator(disk, told),
        "shard" => open_shard(disk, told),
        _ => {
            told.refuse("a disk is not opened as that");
            Node::Disk(disk)
        }
    }
}

/// `format NODE`: the disk is made ready for a journal of bodies. `open NODE bodies`, `records`, `coordinator`, `shard`: it is opened. What
/// comes of it is told: how many there are, or why it could not be done.
pub fn open(nodes: &mut Vec<Node>, place: u32, kind: &str, told: &mut Told) {
    match disk_in(take_node(nodes, place)) {
        Some(disk) => {
            let own = opened(disk, kind, told);
            put_node(nodes, place, own);
        }
        None => told.refuse(NO_FAULTS),
    }
}

fn is_open(nodes: &[Node], place: u32) -> bool {
    match nodes.get(place as usize) {
        Some(Node::Log(_)) => true,
        Some(Node::Shard(_)) => true,
        _ => false,
    }
}

/// The capacity of a disk, where a row does not say.
const CAPACITY: u32 = 10_000;

// The bytes of a node's journal in a ledger: its records, and a closed gate.
fn bytes_in(known: &Known, node: u32, rows: &[(u32, Record)], told: &mut Told) -> Vec<u8> {
    let mut bytes = Vec::new(told.alloc);
    if let Some(header) = told.given(known.header(node)) {
        for (own, record) in rows {
            if *own == node {
                put_record(&mut bytes, record, &header, told);
            }
        }
    }
    told.push(&mut bytes, 0);
    bytes
}

// Lays the disk of a node of a ledger, and opens it.
fn lay(nodes: &mut Vec<Node>, node: u32, bytes: &[u8], capacity: u32, kind: &str, told: &mut Told) {
    let mut own = Told::new(told.alloc);
    make_place(nodes, node, told);
    put_disk(
        nodes,
        node,
        bytes,
        capacity,
        Vec::new(told.alloc),
        CALLS,
        told,
    );
    open(nodes, node, kind, &mut own);
    if !is_open(nodes, node) {
        told.refuse("a node of the ledger could not be opened");
    }
}

// The capacity of a node's disk, by the words of its step.
fn capacity_of(capacities: &[&str], node: u32, told: &mut Told) -> u32 {
    let at = node as usize;
    if at < capacities.len() {
        told.small_at(capacities, at)
    } else {
        CAPACITY
    }
}

// As what a node of a ledger is opened.
fn kind_of(shape: &Shape, node: u32) -> &'static str {
    if node < shape.coordinators() {
        "coordinator"
    } else {
        "shard"
    }
}

// Lays a node of a ledger.
fn lay_one(
    known: &Known,
    nodes: &mut Vec<Node>,
    shape: &Shape,
    node: u32,
    capacities: &[&str],
    rows: &[(u32, Record)],
    told: &mut Told,
) {
    let kind = kind_of(shape, node);
    let capacity = capacity_of(capacities, node, told);
    let bytes = bytes_in(known, node, rows, told);
    lay(nodes, node, &bytes, capacity, kind, told);
}

// Lays each node of a ledger, of which no row may be another's.
fn lay_all(
    known: &Known,
    nodes: &mut Vec<Node>,
    shape: &Shape,
    capacities: &[&str],
    rows: &[(u32, Record)],
    told: &mut Told,
) {
    let many = shape.node_count();
    if rows.iter().any(|row| row.0 >= many) {
        told.refuse("no such node");
    }
    for node in 0..many {
        lay_one(known, nodes, shape, node, capacities, rows, told);
    }
}

/// `ledger [CAPACITY..]`, with a line `NODE RECORD` for each record: all nodes of the shape, open.
pub fn ledger(known: &Known, nodes: &mut Vec<Node>, words: &[&str], text: &str, told: &mut Told) {
    let Some(shape) = told.given(known.shape()) else {
        return;
    };
    told.at_most(words, shape.node_count() as usize);
    let rows = rows_in(known, text, told);
    lay_all(known, nodes, &shape, words, &rows, told);
}
