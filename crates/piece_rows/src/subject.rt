// What the steps of these rows do: questions to the pure parts.
use crate::batches::{batches, refused, shard, split_told, workload};
use crate::bytes::{bytes, text};
use crate::fields::{fields, number_bytes, small_bytes};
use crate::files::{client_file, fetched, mint_file, verdict, verdict_file};
use crate::hashes::{coin_hash, digits, hashes, sha, undigits};
use crate::lines::{audited, fault, line};
use crate::messages::messages;
use crate::records::{reads_first, reads_record, record_bytes};
use crate::repeats::repeated;
use crate::state::State;
use crate::streams::streamed;
use crate::transactions::{feeds, reads_tx, tx_bytes};
use crate::verbs::{Verb, is_for, takes_text, verb_of};
use crate::words::{shows, shows_like, words_ask};
use cbdc_types::Header;
use row_records::{
    Block, Mint, Names, Subject, Told, Wrong, name_form, name_hash, name_tx, rest, shape,
};
use std::alloc::Global;

// `hash NAME HASH`
fn named_hash(state: &mut State, words: &[&str], told: &mut Told) {
    let name = told.word_at(words, 0);
    let own = told.hash_at(words, 1);
    name_hash(&mut state.known, name, &own, told);
}

// `genesis HASH`: the id of a mint of no coins.
fn genesis(state: &mut State, words: &[&str], told: &mut Told) {
    let alloc = told.alloc;
    let id = told.hash_at(words, 0);
    let coins = Vec::new(alloc);
    told.made(state.known.mints.put(alloc, "", Mint { coins, id }));
}

// Names what records speak of, or bytes.
fn name(state: &mut State, verb: Verb, words: &[&str], block: &Block, told: &mut Told) {
    match verb {
        Verb::Hash => named_hash(state, words, told),
        Verb::Shape => shape(&mut state.known, words, told),
        Verb::Genesis => genesis(state, words, told),
        Verb::Tx => name_tx(&mut state.known, words, told),
        Verb::Form => name_form(&mut state.known, words, told),
        Verb::Bytes => bytes(state, words, told),
        _ => text(state, words, block.text.as_str(), told),
    }
}

// Does a step on lines; the words begin with the verb.
fn print(header: &Header, verb: Verb, words: &[&str], block: &Block, told: &mut Told) {
    match verb {
        Verb::Fault => fault(header, words, block, told),
        _ => line(header, rest(words, 1), block.text.as_str(), told),
    }
}

// Does a step; the words begin with the verb.
fn tell(state: &mut State, verb: Verb, words: &[&str], block: &Block, told: &mut Told) {
    match verb {
        Verb::Hash | Verb::Shape | Verb::Genesis | Verb::Tx | Verb::Form => {
            name(state, verb, rest(words, 1), block, told);
        }
        Verb::Bytes | Verb::Text => name(state, verb, rest(words, 1), block, told),
        Verb::Fault | Verb::Line => {
            if let Some(header) = told.given(state.known.header(0)) {
                print(&header, verb, words, block, told);
            }
        }
        other => look(state, other, rest(words, 1), block.text.as_str(), told),
    }
}

// Does a step that looks at what was made, or asks about words alone.
fn look(state: &State, verb: Verb, words: &[&str], text: &str, told: &mut Told) {
    match verb {
        Verb::Shows => shows(words, text, told),
        Verb::ShowsLike => shows_like(words, told),
        Verb::Audited => audited(words, text, told),
        Verb::Words => words_ask(words, told),
        Verb::Shard => shard(words, told),
        Verb::Workload => workload(words, told),
        Verb::CoinHash => coin_hash(words, told),
        Verb::Undigits => undigits(words, told),
        Verb::Messages => messages(words, told),
        other => read(state, other, words, told),
    }
}

// Does a step on files, fields and transactions as bytes.
fn read(state: &State, verb: Verb, words: &[&str], told: &mut Told) {
    match verb {
        Verb::MintFile => mint_file(state, words, told),
        Verb::ClientFile => client_file(state, words, told),
        Verb::VerdictFile => verdict_file(state, words, told),
        Verb::Verdict => verdict(state, words, told),
        Verb::Fetch => fetched(state, words, told),
        Verb::Streams => streamed(state, words, told),
        Verb::Number => number_bytes(state, words, told),
        Verb::Small => small_bytes(state, words, told),
        Verb::Fields => fields(state, words, told),
        Verb::TxBytes => tx_bytes(state, words, told),
        Verb::ReadsTx => reads_tx(state, words, told),
        Verb::Feeds => feeds(state, words, told),
        other => read_more(state, other, words, told),
    }
}

// Does a step on records, hashes, parts and batches.
fn read_more(state: &State, verb: Verb, words: &[&str], told: &mut Told) {
    match verb {
        Verb::RecordBytes => record_bytes(state, words, told),
        Verb::ReadsRecord => reads_record(state, words, told),
        Verb::ReadsFirst => reads_first(state, words, told),
        Verb::Hashes => hashes(state, words, told),
        Verb::Sha => sha(state, words, told),
        Verb::Digits => digits(state, words, told),
        Verb::Split => split_told(state, words, told),
        Verb::Batcher => batches(state, words, told),
        Verb::Sentinel => refused(state, words, told),
        _ => told.refuse("no such step"),
    }
}

impl Subject for State {
    fn new(alloc: Global) -> State {
        State::empty(alloc)
    }

    fn hashes(&self) -> &Names<String> {
        &self.known.hashes
    }

    fn mark(&mut self) {
        self.keep();
    }

    fn begin(&mut self) {
        self.forget();
    }

    fn take_wrong(&mut self) -> Option<Wrong> {
        self.wrong.take()
    }
}

// Does the step of these words; whether it takes the text behind it in, or compares it by itself.
fn tell_step(state: &mut State, words: &[&str], block: &Block, told: &mut Told) -> bool {
    match verb_of(told.word_at(words, 0)) {
        Some(verb) if is_for(verb, block) => {
            tell(state, verb, words, block, told);
            takes_text(verb)
        }
        Some(_) => {
            told.refuse("what stands behind it is not for this step");
            true
        }
        None => {
            told.refuse("no such step");
            true
        }
    }
}

/// Does a step, with what stands behind it; where it does not hold, the state keeps why. Its answer is the text behind it, where it does not take that in.
pub fn step(alloc: Global, state: &mut State, text: &str, block: &Block) {
    let mut told = Told::new(alloc);
    let words = told.words_of(text);
    let words = repeated(&words, &mut told);
    let came = if tell_step(state, &words, block, &mut told) {
        told.end()
    } else {
        told.check(block.text.as_str())
    };
    state.wrong = came.err();
}
