// A line as it is made, in a fixed array.
ghost use Rattle.std.specs.Prelude.{◌≡◌, ◌+◌, ◌*◌, ◌≤◌, ◌∷◌, [], ◌++◌, length, decimal};
ghost use Rattle.hex.specs.Hex.{encode_lower};

use arrayvec::ArrayVec;
use cbdc_types::Hash;
use itoa::Buffer;

/// The most bytes that a line without a file's name has.
pub(crate) const ROOM: usize = 512;

pub(crate) type Line = ArrayVec<u8, 512>;

/// Appends bytes.
pub(crate) fn push(line: &mut Line, bytes: &[u8])
    requires { length line.old.items + length bytes.now ≤ 512 }
    ensures { line.new.items ≡ line.old.items ++ bytes.now }
{
    let _ = line.try_extend_from_slice(bytes);
}

/// Appends a space and a word.
pub(crate) fn push_word(line: &mut Line, word: &[u8])
    requires { length line.old.items + length word.now + 1 ≤ 512 }
    ensures text { line.new.items ≡ line.old.items ++ 32 ∷ word.now }
    ensures len { length line.new.items ≡ length line.old.items + length word.now + 1 }
{
    line.push(b' ');
    push(line, word);
}

/// Begins a line with a number.
pub(crate) fn push_first(line: &mut Line, n: u64)
    requires { length line.old.items + 20 ≤ 512 }
    ensures text { line.new.items ≡ line.old.items ++ decimal n }
    ensures len { length line.new.items ≤ length line.old.items + 20 }
{
    let mut digits = Buffer::new();
    push(line, digits.format(n).as_bytes());
}

/// Appends a space and a number.
pub(crate) fn push_number(line: &mut Line, n: u64)
    requires { length line.old.items + 21 ≤ 512 }
    ensures text { line.new.items ≡ line.old.items ++ 32 ∷ decimal n }
    ensures len { length line.new.items ≤ length line.old.items + 21 }
{
    let mut digits = Buffer::new();
    push_word(line, digits.format(n).as_bytes());
}

/// Appends a space and a number of up to 128 bits.
pub(crate) fn push_wide(line: &mut Line, n: u128)
    requires { length line.old.items + 41 ≤ 512 }
    ensures text { line.new.items ≡ line.old.items ++ 32 ∷ decimal n }
    ensures len { length line.new.items ≤ length line.old.items + 41 }
{
    let mut digits = Buffer::new();
    push_word(line, digits.format(n).as_bytes());
}

/// Begins a line with a hash.
pub(crate) fn push_first_hash(line: &mut Line, hash: &Hash)
    requires { length line.old.items + 64 ≤ 512 }
    ensures text { line.new.items ≡ line.old.items ++ encode_lower hash.now }
    ensures len { length line.new.items ≡ length line.old.items + 64 }
{
    let mut digits = [0u8; 64];
    let _ = hex::encode_to_slice(&hash.0, &mut digits);
    push(line, &digits);
}

/// Appends a space and a hash.
pub(crate) fn push_hash(line: &mut Line, hash: &Hash)
    requires { length line.old.items + 65 ≤ 512 }
    ensures text { line.new.items ≡ line.old.items ++ 32 ∷ encode_lower hash.now }
    ensures len { length line.new.items ≡ length line.old.items + 65 }
{
    let mut digits = [0u8; 64];
    let _ = hex::encode_to_slice(&hash.0, &mut digits);
    push_word(line, &digits);
}

/// Ends the line.
pub(crate) fn push_end(line: &mut Line)
    requires { length line.old.items + 1 ≤ 512 }
    ensures text { line.new.items ≡ line.old.items ++ 10 ∷ [] }
    ensures len { length line.new.items ≡ length line.old.items + 1 }
{
    line.push(b'\n');
}
