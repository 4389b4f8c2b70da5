// What the steps of these rows do.
use crate::calls::{on_shard, open};
use crate::disks::on_mirror;
use crate::making::mirror;
use crate::members::{on_members, part};
use crate::state::{Place, State};
use row_records::{Block, Names, Subject, Told, Wrong, mint, name_form, rest, shape};
use std::alloc::Global;

impl Subject for State {
    fn new(alloc: Global) -> State {
        State::empty(alloc)
    }

    fn hashes(&self) -> &Names<String> {
        &self.known.hashes
    }

    fn mark(&mut self) {
        self.known.mark();
    }

    fn begin(&mut self) {
        self.forget();
    }

    fn take_wrong(&mut self) -> Option<Wrong> {
        self.wrong.take()
    }
}

// Does a step at what is there; whether it takes the text behind it in.
fn at_place(state: &mut State, words: &[&str], text: &str, told: &mut Told) -> bool {
    let State {
        known,
        place,
        written,
        ..
    } = state;
    match place {
        Place::Mirror(disks) => on_mirror(disks, words, told),
        Place::Shard(shard) => return on_shard(known, shard, words, text, told),
        Place::Apart(disks) => on_members(disks.as_slice(), written.as_slice(), words, told),
        Place::Gone => told.refuse("nothing was made"),
    }
    false
}

// Does a step; whether it takes the text behind it in.
fn tell(state: &mut State, words: &[&str], text: &str, told: &mut Told) -> bool {
    let more = rest(words, 1);
    match told.word_at(words, 0) {
        "shape" => shape(&mut state.known, more, told),
        "mint" => mint(&mut state.known, more, told),
        "form" => name_form(&mut state.known, more, told),
        "mirror" => {
            mirror(state, more, text, told);
            return true;
        }
        "open" => open(state, told),
        "part" => part(state, told),
        _ => return at_place(state, words, text, told),
    }
    false
}

/// Does a step, with what stands behind it; where it does not hold, the state keeps why.
pub fn step(alloc: Global, state: &mut State, text: &str, block: &Block) {
    let mut told = Told::new(alloc);
    let words = told.words_of(text);
    let own = block.text.as_str();
    let takes_text = tell(state, &words, own, &mut told);
    state.wrong = told.wrong(takes_text, own);
}
