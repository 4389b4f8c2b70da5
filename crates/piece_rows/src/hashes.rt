// Ids, hashes and digits.
use crate::bytes::bytes_of;
use crate::state::State;
use cbdc_types::{CompactTx, Hash};
use row_records::{Told, inputs};
use sentinel::{compact, input_hash, tx_id, uhs_id};
use sha2::{Digest, Sha256};

// The id, the hashes of the inputs and those of the outputs, a line each.
fn tell_form(told: &mut Told, form: &CompactTx) {
    told.hash(&form.id);
    told.line();
    told.hashes(form.inputs.as_slice());
    told.line();
    told.hashes(form.outputs.as_slice());
}

/// `hashes TX`, and its id, the hashes of its inputs and those of its outputs, a line each.
pub fn hashes(state: &State, words: &[&str], told: &mut Told) {
    let alloc = told.alloc;
    match state.known.full(told.word_at(words, 0)) {
        Ok(tx) => {
            if let Some(form) = told.made(compact(alloc, tx)) {
                tell_form(told, &form);
                if tx_id(tx) != form.id {
                    told.refuse("the compact transaction has another id");
                }
            }
        }
        Err(wrong) => told.fail(wrong),
    }
}

/// `coin-hash INPUT`, and the hash of that coin; an output has the same.
pub fn coin_hash(words: &[&str], told: &mut Told) {
    for input in inputs(words, told).as_slice() {
        told.hash(&input_hash(input));
        told.line();
        told.hash(&uhs_id(&input.point.tx, input.point.index, &input.output));
    }
}

/// The digest of bytes.
pub fn digest(bytes: &[u8]) -> Hash {
    let mut hasher = Sha256::new();
    hasher.update(bytes);
    Hash(hasher.finalize())
}

/// `sha PIECE..`, and the digest of those bytes.
pub fn sha(state: &State, words: &[&str], told: &mut Told) {
    let bytes = bytes_of(state, words, told);
    told.hash(&digest(&bytes));
}

/// `digits PIECE..`, and the digits of those bytes.
pub fn digits(state: &State, words: &[&str], told: &mut Told) {
    let bytes = bytes_of(state, words, told);
    told.digits(&bytes);
}

// The letters that bytes are.
fn tell_letters(told: &mut Told, bytes: &[u8]) {
    match std::str::from_utf8(bytes) {
        Ok(letters) => told.word(letters),
        Err(_) => told.word("no letters"),
    }
}

/// `undigits DIGITS`, and the letters that they spell, or `none`.
pub fn undigits(words: &[&str], told: &mut Told) {
    let own = told.word_at(words, 0);
    match hex::decode(told.alloc, own) {
        Ok(bytes) => tell_letters(told, bytes.as_slice()),
        Err(_) => told.word("none"),
    }
}
