// What texts among the words spell.
ghost use Rattle.std.specs.Prelude.{◌≡◌, ◌≤◌, ℕ, map, decimal, MatchOption, IfOk, IsErrOf, Ok};
ghost use Rattle.hex.specs.Hex.{decode_of};
ghost use Rattle.command_line.specs.Values.{IsHashText, IsNumber, IsUpTo, IsWholeNumber};

use base_types::Hash;
use hex::FromHex;
use itoa::Buffer;

/// The number from 1 to a limit that a text spells in decimal digits, without a sign or a leading zero.
pub(crate) fn number_in(text: &str, most: u32) -> Option<u32>
    requires { most ≤ 10000 }
    ensures { MatchOption result ((n : ℕ) → ¬ (IsNumber most text.now n)) (λ n. IsNumber most text.now n) }
{
    let Ok(n) = text.parse::<u32>() else {
        return None;
    };
    if n == 0 {
        return None;
    }
    if n > most {
        return None;
    }
    let mut digits = Buffer::new();
    if digits.format(n) == text {
        return Some(n);
    }
    None
}

/// The number that a text spells in decimal digits, without a sign or a leading zero, where 64 bits hold it.
pub(crate) fn whole_in(text: &str) -> Option<u64>
    ensures { MatchOption result ((n : ℕ) → ¬ (IsWholeNumber text.now n)) (λ n. IsWholeNumber text.now n) }
{
    let Ok(n) = text.parse::<u64>() else {
        return None;
    };
    let mut digits = Buffer::new();
    if digits.format(n) == text {
        return Some(n);
    }
    None
}

/// The number up to a limit that a text spells in decimal digits, without a sign or a leading zero.
pub(crate) fn up_to_in(text: &str, most: u32) -> Option<u32>
    ensures { MatchOption result ((n : ℕ) → ¬ (IsUpTo most text.now n)) (λ n. IsUpTo most text.now n) }
{
    let Some(n) = whole_in(text) else {
        return None;
    };
    if n > most as u64 {
        return None;
    }
    Some(n as u32)
}

/// The hash that 64 hexadecimal digits spell, in either case.
pub(crate) fn hash_in(text: &str) -> Option<Hash>
    ensures { MatchOption result (¬ (IsHashText text.now)) (λ h. decode_of text.now ≡ Ok h) }
{
    match <[u8; 32] as FromHex>::from_hex(text) {
        Ok(bytes) => Some(Hash(bytes)),
        Err(_) => None,
    }
}
