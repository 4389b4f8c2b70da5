// What the steps of these rows do.
use crate::events::{happen, run};
use crate::looking::{NO_GROUP, members, sent};
use crate::making::{group, records};
use crate::state::State;
use row_records::{Block, Names, Subject, Told, Wrong, mint, name_form, name_tx, rest, shape};
use std::alloc::Global;

impl Subject for State {
    fn new(alloc: Global) -> State {
        State::empty(alloc)
    }

    fn hashes(&self) -> &Names<String> {
        &self.known.hashes
    }

    fn mark(&mut self) {
        self.keep();
    }

    fn begin(&mut self) {
        self.forget();
    }

    fn take_wrong(&mut self) -> Option<Wrong> {
        self.wrong.take()
    }
}

// Does a step that names things, begins a group, or lets something happen to it; whether it takes the text behind it in.
fn make(state: &mut State, words: &[&str], text: &str, told: &mut Told) -> bool {
    let more = rest(words, 1);
    match told.word_at(words, 0) {
        "shape" => shape(&mut state.known, more, told),
        "mint" => mint(&mut state.known, more, told),
        "tx" => name_tx(&mut state.known, more, told),
        "form" => name_form(&mut state.known, more, told),
        "group" => group(state, more, told),
        "records" => {
            records(state, more, text, told);
            return true;
        }
        "run" => {
            run(state, text, told);
            return true;
        }
        _ => happen(state, words, told),
    }
    false
}

// Does a step that looks at the group; whether it is one.
fn look(state: &State, words: &[&str], told: &mut Told) -> bool {
    let verb = told.word_at(words, 0);
    if verb != "members" && verb != "sent" {
        return false;
    }
    told.at_most(words, 1);
    match &state.group {
        Some(own) if verb == "sent" => sent(state, own, told),
        Some(own) => members(state, own, told),
        None => told.refuse(NO_GROUP),
    }
    true
}

/// Does a step, with what stands behind it; where it does not hold, the state keeps why.
pub fn step(alloc: Global, state: &mut State, text: &str, block: &Block) {
    let mut told = Told::new(alloc);
    let words = told.words_of(text);
    let own = block.text.as_str();
    let takes_text = !look(state, &words, &mut told) && make(state, &words, own, &mut told);
    state.wrong = told.wrong(takes_text, own);
}
