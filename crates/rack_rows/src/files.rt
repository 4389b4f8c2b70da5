// Steps that name hashes, transactions and files.
use crate::state::{State, Tx};
use crate::verbs::{Verb, verb_of};
use crate::words::{count_at, hex_at};
use row_records::{
    Told, put_coins, put_inputs, put_number, put_witnesses, rest, words_around, write_over,
};

/// `hash NAME DIGITS`
pub fn name_hash(state: &mut State, words: &[&str], told: &mut Told) {
    let alloc = told.alloc;
    let (name, digits) = (told.word_at(words, 0), told.word_at(words, 1));
    if digits.len() != 64 {
        told.refuse("a hash has 64 digits");
    }
    if let Some(own) = told.made(String::from_str(alloc, digits)) {
        told.made(state.hashes.put(alloc, name, own));
    }
}

// Appends the bytes of `INPUT.. -> COIN.. [witnesses N]`, with a witness for each input where none are told; the answer is how many inputs there are.
fn put_tx(bytes: &mut Vec<u8>, words: &[&str], told: &mut Told) -> usize {
    let alloc = told.alloc;
    let (parts, own) = words_around(words, "witnesses");
    let (inputs, outputs) = words_around(parts, "->");
    let many = match own {
        [] => inputs.len(),
        own => count_at(own, 0, told),
    };
    told.given(put_inputs(alloc, bytes, inputs));
    told.given(put_coins(alloc, bytes, outputs));
    told.given(put_witnesses(bytes, many));
    inputs.len()
}

/// `tx NAME INPUT.. -> COIN.. [witnesses N]`: with a witness for each input where none are told.
pub fn name_tx(state: &mut State, words: &[&str], told: &mut Told) {
    let alloc = told.alloc;
    let name = told.word_at(words, 0);
    let mut bytes = Vec::new(alloc);
    let inputs = put_tx(&mut bytes, rest(words, 1), told);
    told.made(state.txs.put(alloc, name, Tx { bytes, inputs }));
}

// Appends bytes.
fn put(bytes: &mut Vec<u8>, new: &[u8], told: &mut Told) {
    told.made(bytes.extend_from_slice(new));
}

// `client TX..`: a client file of these transactions.
fn put_client(state: &State, bytes: &mut Vec<u8>, names: &[&str], told: &mut Told) {
    told.made(put_number(bytes, names.len() as u64));
    for name in names {
        if let Some(tx) = state.tx(name, told) {
            put(bytes, &tx.bytes, told);
        }
    }
}

// Tells a good line for each input of a transaction.
fn tell_good(state: &State, name: &str, lines: &mut Told) {
    let id = state.hash(name, lines);
    if let Some(tx) = state.tx(name, lines) {
        for index in 0..tx.inputs {
            lines.word(id);
            lines.number(index as u64);
            lines.word("good");
            lines.line();
        }
    }
}

// `good TX..`: a verdict file with a good line for each input of these transactions, whose ids are hashes of the same names.
fn put_good(state: &State, bytes: &mut Vec<u8>, names: &[&str], told: &mut Told) {
    let mut lines = Told::new(told.alloc);
    for name in names {
        tell_good(state, name, &mut lines);
    }
    put(bytes, lines.as_str().as_bytes(), told);
    told.given(lines.end());
}

// Appends bytes that digits spell.
fn put_hex(bytes: &mut Vec<u8>, words: &[&str], told: &mut Told) {
    let new = hex_at(words, 0, told);
    put(bytes, &new, told);
}

// Writes bytes over those at a place.
fn set(bytes: &mut [u8], words: &[&str], told: &mut Told) {
    let at = count_at(words, 0, told);
    let new = hex_at(words, 1, told);
    told.given(write_over(bytes, at, &new));
}

/// Changes bytes: `set AT DIGITS` writes over those that stand there, `add DIGITS` puts others behind them, `truncate BYTES` keeps the first.
pub fn change_bytes(bytes: &mut Vec<u8>, verb: Verb, words: &[&str], told: &mut Told) {
    match verb {
        Verb::Set => set(bytes, words, told),
        Verb::Add => put_hex(bytes, words, told),
        Verb::Truncate => bytes.truncate(count_at(words, 0, told)),
        _ => told.refuse("no such change"),
    }
}

// Appends the bytes of the file that the words begin with, with a change.
fn put_changed(state: &State, bytes: &mut Vec<u8>, verb: Verb, words: &[&str], told: &mut Told) {
    if let Some(file) = state.file(told.word_at(words, 0), told) {
        put(bytes, file, told);
    }
    change_bytes(bytes, verb, rest(words, 2), told);
}

// Appends the bytes that the file is to have which the words begin with.
fn put_file(state: &State, bytes: &mut Vec<u8>, words: &[&str], text: &str, told: &mut Told) {
    let alloc = told.alloc;
    let behind = rest(words, 2);
    let Some(verb) = verb_of(rest(words, 1), told) else {
        return;
    };
    match verb {
        Verb::Mint => {
            told.given(put_coins(alloc, bytes, behind));
        }
        Verb::Client => put_client(state, bytes, behind, told),
        Verb::Good => put_good(state, bytes, behind, told),
        Verb::Text => put(bytes, text.as_bytes(), told),
        Verb::Hex => put_hex(bytes, behind, told),
        other => put_changed(state, bytes, other, words, told),
    }
}

/// `file NAME mint COIN..`, `client TX..`, `good TX..`, `text` with a block, `hex DIGITS`, `set AT DIGITS`, `add DIGITS`, `truncate BYTES`
pub fn name_file(state: &mut State, words: &[&str], text: &str, told: &mut Told) {
    let alloc = told.alloc;
    let name = told.word_at(words, 0);
    let mut bytes = Vec::new(alloc);
    put_file(state, &mut bytes, words, text, told);
    told.made(state.files.put(alloc, name, bytes));
}
