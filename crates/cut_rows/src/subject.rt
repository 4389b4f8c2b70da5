// What the steps of these rows do.
use crate::cutting::{Asked, tell_cut};
use crate::state::State;
use row_records::{Block, Names, Subject, Told, Wrong, mint, name_tx, rest, shape};
use std::alloc::Global;
use std::thread::Threads;

impl Subject for State {
    fn new(alloc: Global) -> State {
        State::empty(alloc)
    }

    fn hashes(&self) -> &Names<String> {
        &self.known.hashes
    }

    fn mark(&mut self) {
        self.known.mark();
    }

    fn begin(&mut self) {
        self.known.forget();
    }

    fn take_wrong(&mut self) -> Option<Wrong> {
        self.wrong.take()
    }
}

// Does a step; whether it takes the text behind it in.
fn tell<R: Threads + Sync>(
    rt: &R,
    state: &mut State,
    words: &[&str],
    text: &str,
    told: &mut Told,
) -> bool {
    let verb = told.word_at(words, 0);
    let more = rest(words, 1);
    match verb {
        "shape" => shape(&mut state.known, more, told),
        "mint" => mint(&mut state.known, more, told),
        "tx" => name_tx(&mut state.known, more, told),
        "handed" => state.hand_in(more, told),
        "ledger" => {
            state.ledger(text, told);
            return true;
        }
        "cut" => tell_cut(rt, state, Asked::Cut, more, told),
        "part" => tell_cut(rt, state, Asked::Part, more, told),
        _ => told.refuse("no such step"),
    }
    false
}

/// Does a step, with what stands behind it; where it does not hold, the state keeps why.
pub fn step<R: Threads + Sync>(
    rt: &R,
    alloc: Global,
    state: &mut State,
    text: &str,
    block: &Block,
) {
    let mut told = Told::new(alloc);
    let words = told.words_of(text);
    let came = if tell(rt, state, &words, block.text.as_str(), &mut told) {
        told.end()
    } else {
        told.check(block.text.as_str())
    };
    state.wrong = came.err();
}
