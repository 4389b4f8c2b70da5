// Steps that need no run of the program, and what one that does leaves to be checked.
use crate::files::{name_file, name_hash, name_tx};
use crate::looking::{bytes, check_run, look, same};
use crate::ordering::{holding_of, points_of};
use crate::racks::{change_disk, crash, empty_rack, keep, load, take_back};
use crate::runs::Ran;
use crate::state::{ROOM, State};
use crate::verbs::{Verb, is_for, verb_of};
use crate::words::count_at;
use row_records::{Block, Names, Subject, Told, Wrong};
use std::alloc::Global;

/// Keeps what a run over the disks left, if one was made, and checks its text and status.
pub fn check(state: &mut State, ran: Option<Ran>, block: &Block, told: &mut Told) {
    state.ran = ran;
    state.room = ROOM;
    state.order.clear();
    if let Some(ran) = &state.ran {
        take_back(state.disks.as_mut_slice(), ran, told);
        check_run(ran.text(told), ran.status, block, told);
    }
}

// `order [quick] [TURNS]`, and a line `LANE NODE KIND WHEN` for each point: the points of the next run are held to this order, for so many turns
// each, by a gate that says that calls are slow, or `quick`.
fn order(state: &mut State, words: &[&str], text: &str, told: &mut Told) {
    state.order = points_of(text, told);
    state.holding = holding_of(words, told);
}

/// Does a step that makes or changes something, or looks at it.
pub fn do_step(state: &mut State, verb: Verb, words: &[&str], text: &str, told: &mut Told) {
    match verb {
        Verb::Hash => name_hash(state, words, told),
        Verb::Tx => name_tx(state, words, told),
        Verb::File => name_file(state, words, text, told),
        Verb::Rack => empty_rack(state, words, told),
        Verb::Load => load(state, words, told),
        Verb::Keep => keep(state, words, told),
        Verb::Node => change_disk(state, words, told),
        Verb::Crash => crash(state, words, told),
        // so many bytes the next run's output takes
        Verb::Room => state.room = count_at(words, 0, told),
        Verb::Order => order(state, words, text, told),
        Verb::Same => same(state, words, told),
        Verb::Bytes => bytes(state, words, told),
        other => look(state, other, words, text, told),
    }
}

impl Subject for State {
    fn new(alloc: Global) -> State {
        State::empty(alloc)
    }

    fn hashes(&self) -> &Names<String> {
        &self.hashes
    }

    fn mark(&mut self) {
        self.keep_names();
    }

    fn begin(&mut self) {
        self.forget();
    }

    fn take_wrong(&mut self) -> Option<Wrong> {
        self.wrong.take()
    }
}

/// The verb of a step's words, where what stands behind them is for it.
pub fn verb_for(words: &[&str], block: &Block, told: &mut Told) -> Option<Verb> {
    let verb = verb_of(words, told)?;
    if !is_for(verb, block) {
        told.refuse("what stands behind it is not for this step");
        return None;
    }
    Some(verb)
}
