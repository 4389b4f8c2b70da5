// What the steps of these rows do.
use crate::asking::ask;
use crate::cores::make_lanes;
use crate::devices::{gate, inbox, rack, sink};
use crate::disks::{close, crash, disk, plain_disk};
use crate::lanes::{asked, asks, lane};
use crate::looking::{keep, same};
use crate::opening::{ledger, open};
use crate::parts::{calls, gathers, latest_of};
use crate::slots::{entries, make_slots, slot_step};
use crate::state::{State, make_place};
use crate::stores::{find, len, make_store, put, put_all, reserve, room, spare, take_out};
use crate::verbs::{Verb, takes_text, verb_of};
use lane_driver::no_memory;
use row_records::{Block, Names, Subject, Told, Wrong, name_form, rest, shape};
use std::alloc::Global;
use std::sync::Wait;

// Runs a lane, or one batch of it.
fn run<W: Wait>(rt: &W, state: &mut State, words: &[&str], is_whole: bool, told: &mut Told) {
    let State {
        known,
        nodes,
        seen,
        ..
    } = state;
    lane(rt, known, nodes, seen, words, is_whole, told);
}

// Does a step, and tells what comes of it.
fn tell<W: Wait>(
    rt: &W,
    state: &mut State,
    verb: Verb,
    words: &[&str],
    text: &str,
    told: &mut Told,
) {
    match verb {
        Verb::Lane => run(rt, state, words, true, told),
        Verb::Batch => run(rt, state, words, false, told),
        Verb::Gate => gate(rt, words, told),
        Verb::Asked => asked(&state.seen, text, told),
        Verb::Asks => asks(&state.seen, told),
        other => make(state, other, words, text, told),
    }
}

// Does a step that names something or lays nodes, or looks at all nodes.
fn make(state: &mut State, verb: Verb, words: &[&str], text: &str, told: &mut Told) {
    match verb {
        Verb::Shape => shape(&mut state.known, words, told),
        Verb::Form => name_form(&mut state.known, words, told),
        Verb::Ledger => ledger(&state.known, &mut state.nodes, words, text, told),
        Verb::Disk => disk(&state.known, &mut state.nodes, words, text, told),
        Verb::Keep => keep(&state.nodes, &mut state.kept, words, told),
        Verb::Same => same(&state.nodes, &state.kept, words, told),
        other => compute(state, other, words, text, told),
    }
}

// Does a step of what asks no node: a driver's parts, and devices.
fn compute(state: &mut State, verb: Verb, words: &[&str], text: &str, told: &mut Told) {
    match verb {
        Verb::Calls => calls(&state.known, words, text, told),
        Verb::Answered => entries(&state.known, words, told),
        Verb::Gather => gathers(words, told),
        Verb::Latest => latest_of(words, told),
        Verb::NoMemory => told.shown(&no_memory()),
        Verb::Rack => rack(words, told),
        Verb::Sink => sink(words, told),
        Verb::Inbox => inbox(words, told),
        other => tabulate(state, other, words, text, told),
    }
}

// Does a step of a shard's tables.
fn tabulate(state: &mut State, verb: Verb, words: &[&str], text: &str, told: &mut Told) {
    match verb {
        Verb::Store => make_store(&mut state.tables, words, told),
        Verb::Room => room(&mut state.tables, words, told),
        Verb::Spare => spare(&state.tables, words, told),
        Verb::Slots => make_slots(&mut state.tables, words, told),
        Verb::Slot => slot_step(&state.known, &mut state.tables, words, told),
        other => at_store(state, other, words, text, told),
    }
}

// Does a step of one table.
fn at_store(state: &mut State, verb: Verb, words: &[&str], text: &str, told: &mut Told) {
    let store = &mut state.tables.store;
    match verb {
        Verb::Reserve => reserve(store, words, told),
        Verb::Len => len(store, told),
        Verb::Put => put(store, words, told),
        Verb::PutAll => put_all(store, words, told),
        Verb::Out => take_out(store, words, told),
        Verb::Find => find(store, words, told),
        other => turn(state, other, words, text, told),
    }
}

// Makes another of what stands in the place that a step begins with, or asks what stands there.
fn turn(state: &mut State, verb: Verb, words: &[&str], text: &str, told: &mut Told) {
    let place = told.small_at(words, 0);
    let own = rest(words, 1);
    make_place(&mut state.nodes, place, told);
    match verb {
        Verb::Lanes => make_lanes(&state.known, &mut state.nodes, place, told),
        Verb::Plain => plain_disk(&mut state.nodes, place, own, told),
        Verb::Crash => crash(&mut state.nodes, place, own, told),
        Verb::Close => close(&mut state.nodes, place, told),
        Verb::Format => open(&mut state.nodes, place, "", told),
        Verb::Open => {
            let kind = told.word_at(own, 0);
            open(&mut state.nodes, place, kind, told);
        }
        other => {
            if let Some(node) = state.nodes.get_mut(place as usize) {
                ask(&state.known, node, other, own, text, told);
            }
        }
    }
}

impl Subject for State {
    fn new(alloc: Global) -> State {
        State::empty(alloc)
    }

    fn hashes(&self) -> &Names<String> {
        &self.known.hashes
    }

    fn mark(&mut self) {
        self.known.mark();
    }

    fn begin(&mut self) {
        self.forget();
    }

    fn take_wrong(&mut self) -> Option<Wrong> {
        self.wrong.take()
    }
}

/// Does a step, with what stands behind it, and compares what comes of it with that, where the step does not take it in; where it does not hold, the
/// state keeps why.
pub fn step<W: Wait>(rt: &W, alloc: Global, state: &mut State, text: &str, block: &Block) {
    let mut told = Told::new(alloc);
    let words = told.words_of(text);
    let behind = block.text.as_str();
    let mut is_taken = true;
    if let Some(verb) = verb_of(&words, block, &mut told) {
        is_taken = takes_text(verb);
        tell(rt, state, verb, rest(&words, 1), behind, &mut told);
    }
    state.wrong = told.wrong(is_taken, behind);
}
