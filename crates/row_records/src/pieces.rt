// Bytes as rows spell them, in pieces.
use crate::put_number;
use crate::spelling::hex_of;
use crate::told::Told;

// Appends bytes that digits spell, so many times.
fn put_times(out: &mut Vec<u8>, digits: &str, times: u64, told: &mut Told) {
    let spelled = hex_of(told.alloc, digits);
    if let Some(own) = told.given(spelled) {
        for _ in 0..times {
            told.made(out.extend_from_slice(&own));
        }
    }
}

// Appends `DIGITS*N`, digits so many times, or `DIGITS`.
fn put_digits(out: &mut Vec<u8>, piece: &str, told: &mut Told) {
    let (digits, times) = piece.split_once('*').unwrap_or((piece, "1"));
    let times = told.number_of(times);
    put_times(out, digits, times, told);
}

/// Appends a piece: `'TEXT'`, `#N` a number in eight bytes, `DIGITS*N` digits so many times, `DIGITS`.
pub fn put_piece(out: &mut Vec<u8>, piece: &str, told: &mut Told) {
    if let Some(text) = piece.strip_prefix('\'') {
        told.made(out.extend_from_slice(text.trim_end_matches('\'').as_bytes()));
    } else if let Some(digits) = piece.strip_prefix('#') {
        let n = told.number_of(digits);
        told.made(put_number(out, n));
    } else {
        put_digits(out, piece, told);
    }
}

/// The bytes of pieces, one behind the other.
pub fn bytes_of(pieces: &[&str], told: &mut Told) -> Vec<u8> {
    let mut out = Vec::new(told.alloc);
    for piece in pieces {
        put_piece(&mut out, piece, told);
    }
    out
}
