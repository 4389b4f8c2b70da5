// Bytes, spelled in pieces.
use crate::state::State;
use row_records::{Told, hex_of, put_number, rest};

// Appends bytes that digits spell, so many times.
fn put_times(out: &mut Vec<u8>, digits: &str, times: usize, told: &mut Told) {
    if let Some(own) = told.given(hex_of(told.alloc, digits)) {
        for _ in 0..times {
            told.made(out.extend_from_slice(&own));
        }
    }
}

// Appends named bytes, `NAME`, or the first of them, `NAME:N`.
fn put_named(state: &State, out: &mut Vec<u8>, piece: &str, told: &mut Told) {
    let own = match piece.split_once(':') {
        Some((name, end)) => {
            let (all, end) = (state.bytes(name, told), told.number_of(end) as usize);
            &all[..end.min(all.len())]
        }
        None => state.bytes(piece, told),
    };
    told.made(out.extend_from_slice(own));
}

// Appends a number in eight bytes, or digits, which may stand there so many times.
fn put_spelled(out: &mut Vec<u8>, piece: &str, told: &mut Told) {
    if let Some(digits) = piece.strip_prefix('#') {
        let n = told.number_of(digits);
        told.made(put_number(out, n));
        return;
    }
    match piece.split_once('*') {
        Some((digits, times)) => {
            let times = told.number_of(times) as usize;
            put_times(out, digits, times, told);
        }
        None => put_times(out, piece, 1, told),
    }
}

// Appends a piece: `=NAME` named bytes, `=NAME:N` the first N of them, `#N` a number in eight bytes, `DIGITS*N` digits so many
// times, `DIGITS`.
fn put_piece(state: &State, out: &mut Vec<u8>, piece: &str, told: &mut Told) {
    match piece.strip_prefix('=') {
        Some(own) => put_named(state, out, own, told),
        None => put_spelled(out, piece, told),
    }
}

/// The bytes of pieces, one behind the other.
pub fn bytes_of(state: &State, pieces: &[&str], told: &mut Told) -> Vec<u8> {
    let mut out = Vec::new(told.alloc);
    for piece in pieces {
        put_piece(state, &mut out, piece, told);
    }
    out
}

/// `bytes NAME PIECE..`
pub fn bytes(state: &mut State, words: &[&str], told: &mut Told) {
    let alloc = told.alloc;
    let name = told.word_at(words, 0);
    let all = bytes_of(state, rest(words, 1), told);
    told.made(state.bytes.put(alloc, name, all));
}

/// `text NAME` with a block: the bytes of the text.
pub fn text(state: &mut State, words: &[&str], text: &str, told: &mut Told) {
    let alloc = told.alloc;
    let name = told.word_at(words, 0);
    if let Some(all) = told.made(Vec::from_slice(alloc, text.as_bytes())) {
        told.made(state.bytes.put(alloc, name, all));
    }
}

// What stands before what is written: nothing of it may change.
const BEFORE: [u8; 3] = [170; 3];

/// Bytes behind three others.
pub fn behind_others(bytes: &[u8], told: &mut Told) -> Vec<u8> {
    let mut all = Vec::new(told.alloc);
    told.made(all.extend_from_slice(BEFORE.as_slice()));
    told.made(all.extend_from_slice(bytes));
    all
}
