// Lanes over the nodes, and what they asked of them.
use crate::ledgers::{Apart, Plan, run_over};
use crate::state::{Node, Seen};
use cbdc_types::Shape;
use row_records::{Known, Told, count, rest, txs};
use std::mem;
use std::sync::Wait;

// Puts an open node with the coordinators or with the shards.
fn sort(all: &mut Apart, node: Node, told: &mut Told) {
    match node {
        Node::Log(log) => told.push(&mut all.logs, log),
        Node::Shard(shard) => told.push(&mut all.shards, shard),
        _ => told.refuse("a node is not open"),
    }
}

// The coordinators and the shards.
fn apart(nodes: Vec<Node>, told: &mut Told) -> Apart {
    let alloc = told.alloc;
    let mut all = Apart {
        logs: Vec::new(alloc),
        shards: Vec::new(alloc),
    };
    for node in nodes {
        sort(&mut all, node, told);
    }
    all
}

// The nodes in their places.
fn together(all: Apart, told: &mut Told) -> Vec<Node> {
    let mut nodes = Vec::new(told.alloc);
    let Apart { logs, shards } = all;
    for log in logs {
        told.push(&mut nodes, Node::Log(log));
    }
    for shard in shards {
        told.push(&mut nodes, Node::Shard(shard));
    }
    nodes
}

// Runs a lane over the nodes in their places.
fn run_at<W: Wait>(
    rt: &W,
    shape: &Shape,
    plan: &Plan,
    nodes: &mut Vec<Node>,
    seen: &mut Vec<Seen>,
    told: &mut Told,
) {
    let alloc = told.alloc;
    let all = apart(mem::replace(nodes, Vec::new(alloc)), told);
    let left = run_over(rt, alloc, shape, plan, all, seen, told);
    *nodes = together(left, told);
}

/// `lane LANE TX.. [repeats N]`, and a line for each batch, its lane, number and outcomes, or where the lane stopped, and why; `batch`: the same of one batch.
pub fn lane<W: Wait>(
    rt: &W,
    known: &Known,
    nodes: &mut Vec<Node>,
    seen: &mut Vec<Seen>,
    words: &[&str],
    is_whole: bool,
    told: &mut Told,
) {
    let (own, repeats) = told.small_behind(words, "repeats", 0);
    let lane = told.lane_at(own, 0);
    let Some(shape) = told.given(known.shape()) else {
        return;
    };
    let batch = txs(known, rest(own, 1), told);
    let plan = Plan {
        lane,
        txs: batch.as_slice(),
        is_whole,
        repeats,
    };
    run_at(rt, &shape, &plan, nodes, seen, told);
}

/// The word of a record's kind.
fn kind_word(kind: u8) -> &'static str {
    match kind {
        2 => "lock",
        3 => "finish",
        4 => "forget",
        6 => "prepare",
        7 => "commit",
        8 => "discard",
        9 => "done",
        _ => "unknown",
    }
}

// Tells what a line says that was asked: a number of times, and what.
fn tell_line(told: &mut Told, line: &str) {
    let Some((times, asked)) = line.trim().split_once(' ') else {
        told.refuse("a line says how often what was asked");
        return;
    };
    let times = told.given(count(times)).unwrap_or(0);
    for _ in 0..times {
        told.word(asked);
    }
}

/// `asked`, and lines `TIMES KIND:NODE..`: what the last lane asked of nodes, in order.
pub fn asked(seen: &[Seen], text: &str, told: &mut Told) {
    let mut came = Told::new(told.alloc);
    for (kind, node) in seen {
        came.word(kind_word(*kind));
        came.put(":");
        came.put_shown(node);
    }
    let mut wanted = Told::new(told.alloc);
    for line in text.lines() {
        tell_line(&mut wanted, line);
    }
    let Some(wanted) = told.given(wanted.text()) else {
        return;
    };
    told.given(came.check(wanted.as_str()));
}

// How often a kind was asked for.
fn times_of(seen: &[Seen], kind: u8) -> u128 {
    seen.iter().filter(|own| own.0 == kind).count() as u128
}

/// `asks`, and `lock N finish N forget N`: how often the last lane asked for each, over all nodes.
pub fn asks(seen: &[Seen], told: &mut Told) {
    told.named("lock", times_of(seen, 2));
    told.named("finish", times_of(seen, 3));
    told.named("forget", times_of(seen, 4));
}
