// One line of a verdict file.
ghost use Rattle.std.specs.Prelude.{◌≡◌, ◌≢◌, ◌≤◌, ◌++◌, ◌∷◌, ℕ, Bool, List, length, decimal, MatchOption, IfSome};
ghost use Rattle.hex.specs.Hex.{encode_lower, IsBytes};
ghost use Rattle.sentinel.specs.Lines.{Line, IsLine, HasNoLineEnd, spelled, word};

use base_types::Hash;
use itoa::Buffer;
use memchr::memchr;

/// The input that a line speaks of.
#[derive(Clone, Copy, Debug, PartialEq, Eq, Hash)]
pub(crate) struct Key {
    pub(crate) tx: Hash,
    pub(crate) index: u64,
}

// The id that 64 lower case digits spell.
fn id_of(digits: &[u8]) -> Option<Hash>
    ensures id { MatchOption result ((tx : List ℕ) → length tx ≡ 32 → IsBytes tx
        → digits.now ≢ encode_lower tx) (λ h. digits.now ≡ encode_lower h) }
    ensures size { IfSome result (λ h. length h ≡ 32) }
    ensures bytes { IfSome result (λ h. IsBytes h) }
{
    let mut id = [0u8; 32];
    if hex::decode_to_slice(digits, &mut id).is_err() {
        return None;
    }
    let mut lower = [0u8; 64];
    let _ = hex::encode_to_slice(&id, &mut lower);
    if digits == lower.as_slice() {
        return Some(Hash(id));
    }
    None
}

// The place that a decimal number without leading zeros spells, up to 254.
fn place_of(digits: &[u8]) -> Option<u64>
    ensures { MatchOption result ((n : ℕ) → n ≤ 254
        → digits.now ≢ decimal n) (λ n. (n ≤ 254) × (digits.now ≡ decimal n)) }
{
    let Ok(text) = std::str::from_utf8(digits) else {
        return None;
    };
    let Ok(place) = text.parse::<u64>() else {
        return None;
    };
    if place > 254 {
        return None;
    }
    let mut buffer = Buffer::new();
    if digits == buffer.format(place).as_bytes() {
        return Some(place);
    }
    None
}

// What stands before the word at the end, and whether that is `good`.
fn word_of(line: &[u8]) -> Option<(&[u8], bool)>
    ensures { MatchOption result ((front : List ℕ) (good : Bool)
        → line.now ≢ front ++ 32 ∷ word good) (λ r. line.now ≡ r.0.now ++ 32 ∷ word r.1) }
{
    if let Some(front) = line.strip_suffix(b" good") {
        return Some((front, true));
    }
    if let Some(front) = line.strip_suffix(b" bad") {
        return Some((front, false));
    }
    None
}

// The input that an id and a place with a space between them name.
fn key_of(front: &[u8]) -> Option<Key>
    ensures key { MatchOption result ((l : Line) → IsLine l → front.now ≢ encode_lower l.tx
        ++ 32 ∷ decimal l.index) (λ k. front.now ≡ encode_lower k.tx ++ 32 ∷ decimal k.index) }
    ensures form { IfSome result (λ k. (good : Bool)
        → IsLine (record { tx = k.tx; index = k.index; good = good })) }
{
    let Some((digits, behind)) = front.split_at_checked(64) else {
        return None;
    };
    let Some(number) = behind.strip_prefix(b" ") else {
        return None;
    };
    match (id_of(digits), place_of(number)) {
        (Some(tx), Some(index)) => Some(Key { tx, index }),
        _ => None,
    }
}

/// The input that a line speaks of, and whether its witness is good; None exactly where the line is not in form.
/// Its line feed is not in these bytes.
pub(crate) fn read_line(line: &[u8]) -> Option<(Key, bool)>
    ensures { MatchOption result ((l : Line) → IsLine l
        → line.now ≢ spelled l) (λ r. IsLine (record { tx = r.0.tx; index = r.0.index; good = r.1 })
        × (line.now ≡ spelled (record { tx = r.0.tx; index = r.0.index; good = r.1 }))) }
{
    let Some((front, good)) = word_of(line) else {
        return None;
    };
    match key_of(front) {
        Some(key) => Some((key, good)),
        None => None,
    }
}

/// The bytes before the first line feed, and those behind it.
pub(crate) fn next_line(bytes: &[u8]) -> Option<(&[u8], &[u8])>
    ensures { MatchOption result (HasNoLineEnd bytes.now) (λ r. HasNoLineEnd r.0.now
        × (bytes.now ≡ r.0.now ++ 10 ∷ r.1.now)) }
{
    let end = memchr(b'\n', bytes)?;
    let (line, behind) = bytes.split_at(end);
    Some((line, &behind[1..]))
}
