// What the steps of these rows do: questions on journals that are spelled record by record.
use crate::looking::{follows, look_at_journal, may, ordered, refused, unsound};
use crate::making::{change, files, ledger};
use crate::plain::{clean, look_at_ledger};
use crate::printed::prints;
use crate::state::State;
use crate::verbs::{Verb, is_for, takes_text, verb_of};
use crate::worlds::{NO_WORLD, flight, happen, nodes, recovered, stands, world};
use plain_check::World;
use row_records::{
    Block, Known, Names, Subject, Told, Wrong, mint, name_form, name_tx, rest, shape,
};
use std::alloc::Global;

// Names what records speak of.
fn name(known: &mut Known, verb: Verb, words: &[&str], told: &mut Told) {
    match verb {
        Verb::Shape => shape(known, words, told),
        Verb::Mint => mint(known, words, told),
        Verb::Tx => name_tx(known, words, told),
        _ => name_form(known, words, told),
    }
}

// Does a step that makes files, ledgers or a world.
fn make(state: &mut State, verb: Verb, words: &[&str], text: &str, told: &mut Told) {
    match verb {
        Verb::Files => files(state, "files", words, told),
        Verb::Earlier => files(state, "earlier", words, told),
        Verb::Ledger => ledger(state, words, text, told),
        Verb::Change => change(state, words, told),
        _ => world(state, words, told),
    }
}

// Does a step, by its verb and the words behind it, and tells what comes of it.
fn tell(state: &mut State, verb: Verb, words: &[&str], text: &str, told: &mut Told) {
    match verb {
        Verb::Shape | Verb::Mint | Verb::Tx | Verb::Form => {
            name(&mut state.known, verb, words, told);
        }
        Verb::Files | Verb::Earlier | Verb::Ledger | Verb::Change | Verb::World => {
            make(state, verb, words, text, told);
        }
        Verb::Begin | Verb::End | Verb::Write | Verb::Stop | Verb::Reopen | Verb::Again => {
            happen(state, verb, words, told);
        }
        other => look(state, other, words, text, told),
    }
}

// Does a step that looks at what was made.
fn look(state: &State, verb: Verb, words: &[&str], text: &str, told: &mut Told) {
    match verb {
        Verb::Ask | Verb::Status | Verb::Remembers | Verb::Counts | Verb::Next => {
            look_at_journal(state, verb, words, told);
        }
        Verb::Says | Verb::Slots | Verb::Sizes | Verb::Room | Verb::Need => {
            look_at_journal(state, verb, words, told);
        }
        Verb::Kept | Verb::Alike | Verb::Waves | Verb::Outcome => {
            look_at_ledger(state, verb, words, told);
        }
        Verb::History | Verb::Commits | Verb::Comes | Verb::Holds => {
            look_at_ledger(state, verb, words, told);
        }
        Verb::Nodes | Verb::Flight | Verb::Stands | Verb::Recovered => match &state.world {
            Some(own) => look_at_world(state, own, verb, words, told),
            None => told.refuse(NO_WORLD),
        },
        other => compare(state, other, words, text, told),
    }
}

// Does a step that asks the definitions of something else.
fn compare(state: &State, verb: Verb, words: &[&str], text: &str, told: &mut Told) {
    match verb {
        Verb::Clean => clean(state, words, told),
        Verb::May => may(state, words, told),
        Verb::Follows => follows(state, words, told),
        Verb::Unsound => unsound(state, words, told),
        Verb::Ordered => ordered(state, words, told),
        Verb::Refused => refused(state, words, told),
        Verb::Prints => prints(state, words, text, told),
        Verb::Is => {
            let (wanted, came) = (told.word_at(words, 0), told.word_at(words, 1));
            told.check_same(wanted, came);
        }
        _ => told.refuse("no such step"),
    }
}

// Does a step that looks at the world.
fn look_at_world(state: &State, own: &World, verb: Verb, words: &[&str], told: &mut Told) {
    match verb {
        Verb::Nodes => nodes(own, told),
        Verb::Flight => flight(state, own, words, told),
        Verb::Stands => stands(state, own, words, told),
        Verb::Recovered => recovered(own, words, told),
        _ => told.refuse("no such step"),
    }
}

impl Subject for State {
    fn new(alloc: Global) -> State {
        State::empty(alloc)
    }

    fn hashes(&self) -> &Names<String> {
        &self.known.hashes
    }

    fn mark(&mut self) {
        self.keep();
    }

    fn begin(&mut self) {
        self.forget();
    }

    fn take_wrong(&mut self) -> Option<Wrong> {
        self.wrong.take()
    }
}

// Does the step of these words; whether it takes the text behind it in, or compares it by itself.
fn tell_step(state: &mut State, words: &[&str], block: &Block, told: &mut Told) -> bool {
    match verb_of(told.word_at(words, 0)) {
        Some(verb) if is_for(verb, block) => {
            tell(state, verb, rest(words, 1), block.text.as_str(), told);
            takes_text(verb)
        }
        Some(_) => {
            told.refuse("what stands behind it is not for this step");
            true
        }
        None => {
            told.refuse("no such step");
            true
        }
    }
}

/// Does a step, with what stands behind it; where it does not hold, the state keeps why. Its answer is the text behind it, where it does not take that in.
pub fn step(alloc: Global, state: &mut State, text: &str, block: &Block) {
    let mut told = Told::new(alloc);
    let words = told.words_of(text);
    let came = if tell_step(state, &words, block, &mut told) {
        told.end()
    } else {
        told.check(block.text.as_str())
    };
    state.wrong = came.err();
}
