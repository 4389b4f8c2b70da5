// Numbers and bytes among words.
use row_records::{Told, hex_of};

/// The number at a place.
pub fn count_at(words: &[&str], at: usize, told: &mut Told) -> usize {
    told.number_at(words, at) as usize
}

/// The bytes that digits spell.
pub fn hex(digits: &str, told: &mut Told) -> Vec<u8> {
    let alloc = told.alloc;
    told.given(hex_of(alloc, digits)).unwrap_or(Vec::new(alloc))
}

/// The bytes that the digits at a place spell.
pub fn hex_at(words: &[&str], at: usize, told: &mut Told) -> Vec<u8> {
    hex(told.word_at(words, at), told)
}

/// A copy of bytes.
pub fn copy_of(bytes: &[u8], told: &mut Told) -> Vec<u8> {
    let alloc = told.alloc;
    told.made(Vec::from_slice(alloc, bytes))
        .unwrap_or(Vec::new(alloc))
}
