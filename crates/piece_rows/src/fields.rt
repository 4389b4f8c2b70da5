// Fields as bytes.
use crate::bytes::bytes_of;
use crate::reader::Reader;
use crate::state::State;
use byte_fields::{put_byte, put_hash, put_items, put_list, put_number, small_number};
use row_records::{Told, rest, words_around};
use std::alloc::AllocError;

// Whether these are the bytes of a number alone.
fn is_number(bytes: &[u8], n: u64) -> bool {
    match byte_fields::number(bytes) {
        Ok((read, behind)) => read == n && behind.is_empty(),
        Err(_) => false,
    }
}

/// `number N PIECE..`: the bytes of a number, both ways.
pub fn number_bytes(state: &State, words: &[&str], told: &mut Told) {
    let n = told.number_at(words, 0);
    let wanted = bytes_of(state, rest(words, 1), told);
    let mut came = Vec::new(told.alloc);
    told.made(put_number(&mut came, n));
    told.check_bytes(&wanted, &came);
    if !is_number(&wanted, n) {
        told.refuse("the bytes are read as another number");
    }
}

/// `small PIECE..`, and whether a number below 2^32 is read, `yes` or `no`.
pub fn small_bytes(state: &State, words: &[&str], told: &mut Told) {
    let bytes = bytes_of(state, words, told);
    told.yes(small_number(&bytes).is_ok());
}

// Appends a field: `byte N`, `number N`, `hash HASH`, `items COUNT HASH..`, `list COUNT HASH..`.
fn put_field(words: &mut Reader, out: &mut Vec<u8>) -> Result<(), AllocError> {
    match words.word() {
        "byte" => put_byte(out, words.byte()),
        "number" => put_number(out, words.number()),
        "hash" => put_hash(out, &words.hash()),
        "items" => put_items(out, words.hashes().as_slice()),
        "list" => put_list(out, &words.hashes()),
        _ => {
            words.refuse();
            Ok(())
        }
    }
}

/// `fields FIELD.. is PIECE..`: fields written one behind the other have these bytes.
pub fn fields(state: &State, words: &[&str], told: &mut Told) {
    let alloc = told.alloc;
    let (fields, pieces) = words_around(words, "is");
    let wanted = bytes_of(state, pieces, told);
    let mut words = Reader::new(alloc, fields);
    let mut came = Vec::new(alloc);
    for _ in 0..fields.len() {
        if words.has_more() {
            told.made(put_field(&mut words, &mut came));
        }
    }
    told.given(words.end());
    told.check_bytes(&wanted, &came);
}
