// What a step asks of a node, by what stands in its place.
use crate::bodies::{add, append, memory, used, used_by_records};
use crate::calls::{call_log, call_shard};
use crate::cores::{admits, core_stands, next};
use crate::disks::{bytes, on_disk};
use crate::looking::{check_records, knows, stands};
use crate::state::Node;
use crate::verbs::Verb;
use coord_core::CoordCore;
use coord_log::CoordLog;
use gate_journal::Journal;
use mem_devices::{FaultDisk, PlainDisk};
use record_log::RecordLog;
use row_records::{Known, Told};
use shard_node::ShardNode;

const NO_STEP: &str = "no step of what stands there";

fn on_plain(disk: &mut PlainDisk, verb: Verb, words: &[&str], told: &mut Told) {
    match verb {
        Verb::Bytes => bytes(disk.bytes(), words, told),
        other => on_disk(disk, other, words, told),
    }
}

fn on_fault(disk: &mut FaultDisk, verb: Verb, words: &[&str], told: &mut Told) {
    match verb {
        Verb::Bytes => bytes(disk.bytes(), words, told),
        other => on_disk(disk, other, words, told),
    }
}

fn on_bodies(journal: &mut Journal<FaultDisk>, verb: Verb, words: &[&str], told: &mut Told) {
    match verb {
        Verb::Memory => memory(journal, words, told),
        Verb::Append => append(journal, words, told),
        Verb::Used => used(journal, told),
        Verb::Bytes => bytes(journal.disk().bytes(), words, told),
        _ => told.refuse(NO_STEP),
    }
}

fn on_records(
    known: &Known,
    log: &mut RecordLog<FaultDisk>,
    verb: Verb,
    words: &[&str],
    text: &str,
    told: &mut Told,
) {
    match verb {
        Verb::Add => add(known, log, words, told),
        Verb::Used => used_by_records(log, told),
        Verb::Journal => {
            check_records(known, log.header.node.0, log.records.as_slice(), text, told);
        }
        _ => told.refuse(NO_STEP),
    }
}

fn on_log(
    known: &Known,
    log: &mut CoordLog<FaultDisk>,
    verb: Verb,
    words: &[&str],
    text: &str,
    told: &mut Told,
) {
    match verb {
        Verb::Call => call_log(known, log, words, told),
        Verb::Journal => check_records(known, log.header().node.0, log.records(), text, told),
        Verb::Stands => stands(log, words, told),
        _ => told.refuse(NO_STEP),
    }
}

fn on_shard(
    known: &Known,
    shard: &mut ShardNode<FaultDisk>,
    verb: Verb,
    words: &[&str],
    text: &str,
    told: &mut Told,
) {
    match verb {
        Verb::Call => call_shard(known, shard, words, told),
        Verb::Journal => check_records(known, shard.header().node.0, shard.records(), text, told),
        Verb::Knows => knows(shard, words, told),
        _ => told.refuse(NO_STEP),
    }
}

fn on_lanes(
    known: &Known,
    core: &mut CoordCore,
    verb: Verb,
    words: &[&str],
    text: &str,
    told: &mut Told,
) {
    match verb {
        Verb::Next => next(known, core, words, text, told),
        Verb::Admits => admits(known, core, words, told),
        Verb::Core => core_stands(core, words, told),
        _ => told.refuse(NO_STEP),
    }
}

/// Asks what stands in a place, where it may be asked so.
pub fn ask(
    known: &Known,
    node: &mut Node,
    verb: Verb,
    words: &[&str],
    text: &str,
    told: &mut Told,
) {
    match node {
        Node::Gone => told.refuse(NO_STEP),
        Node::Plain(disk) => on_plain(disk, verb, words, told),
        Node::Disk(disk) => on_fault(disk, verb, words, told),
        Node::Bodies(journal) => on_bodies(journal, verb, words, told),
        Node::Records(log) => on_records(known, log, verb, words, text, told),
        Node::Log(log) => on_log(known, log, verb, words, text, told),
        Node::Shard(shard) => on_shard(known, shard, verb, words, text, told),
        Node::Lanes(core) => on_lanes(known, core, verb, words, text, told),
    }
}
