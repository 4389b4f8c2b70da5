// Writing fields at the end of a vector. Memory runs out only where the vector's free capacity is less than what is written.
ghost use Rattle.std.specs.Prelude.{◌≡◌, ◌++◌, ◌+◌, ◌<◌, ◌≤◌, List, ℕ, length, OnOk, OnErr};
ghost use Rattle.std.specs.List.{flat_map};
ghost use Rattle.std.specs.Vec.{vec_len, vec_capacity};
ghost use Rattle.byte_spelling.specs.Spelling.{number, counted, output, input, witness};

use byteorder::{ByteOrder, LittleEndian};
use cbdc_types::{Hash, Input, List, Output};
use std::alloc::AllocError;

/// Puts a number's eight bytes at the end.
#[tactic(auto, unfolding(byte_spelling::specs::Spelling::number))]
pub fn put_number(out: &mut Vec<u8>, n: u64) -> Result<(), AllocError>
    ensures ok { OnOk result (out.new.items ≡ out.old.items ++ number n) }
    ensures len { OnOk result (vec_len out.new ≡ vec_len out.old + length (number n)) }
    ensures full { OnErr result (vec_capacity out.old < vec_len out.old + length (number n)) }
    ensures capacity { vec_capacity out.old ≤ vec_capacity out.new }
{
    let mut bytes = [0; 8];
    LittleEndian::write_u64(&mut bytes, n);
    out.extend_from_slice(&bytes)
}

/// Puts a hash's bytes at the end.
pub fn put_hash(out: &mut Vec<u8>, hash: &Hash) -> Result<(), AllocError>
    ensures ok { OnOk result (out.new.items ≡ out.old.items ++ hash.now) }
    ensures len { OnOk result (vec_len out.new ≡ vec_len out.old + length hash.now) }
    ensures full { OnErr result (vec_capacity out.old < vec_len out.old + length hash.now) }
    ensures capacity { vec_capacity out.old ≤ vec_capacity out.new }
{
    out.extend_from_slice(&hash.0)
}

/// What can be written one after another.
pub trait Spell {
    ghost spelled: { Self → List ℕ };

    /// Puts the item's bytes at the end.
    fn put(&self, out: &mut Vec<u8>) -> Result<(), AllocError>
        ensures ok { OnOk result (out.new.items ≡ out.old.items ++ spelled self.now) }
        ensures len { OnOk result (vec_len out.new ≡ vec_len out.old + length (spelled self.now)) }
        ensures full { OnErr result (vec_capacity out.old < vec_len out.old + length (spelled self.now)) }
        ensures capacity { vec_capacity out.old ≤ vec_capacity out.new };
}

impl Spell for Hash {
    ghost spelled = { λ h. h };

    fn put(&self, out: &mut Vec<u8>) -> Result<(), AllocError> {
        out.extend_from_slice(&self.0)
    }
}

impl Spell for Output {
    ghost spelled = { output };

    fn put(&self, out: &mut Vec<u8>) -> Result<(), AllocError> {
        put_hash(out, &self.program)?;
        put_number(out, self.value)
    }
}

impl Spell for Input {
    ghost spelled = { input };

    fn put(&self, out: &mut Vec<u8>) -> Result<(), AllocError> {
        put_hash(out, &self.point.tx)?;
        put_number(out, self.point.index)?;
        self.output.put(out)
    }
}

impl Spell for List<u8> {
    ghost spelled = { witness };

    fn put(&self, out: &mut Vec<u8>) -> Result<(), AllocError> {
        put_number(out, self.len() as u64)?;
        out.extend_from_slice(self.as_slice())
    }
}

/// Puts a list's length and its items at the end.
pub fn put_list<T: Spell>(out: &mut Vec<u8>, list: &List<T>) -> Result<(), AllocError>
    ensures ok { OnOk result (out.new.items ≡ out.old.items ++ counted T.spelled list.now) }
    ensures len { OnOk result (vec_len out.new ≡ vec_len out.old + length (counted T.spelled list.now)) }
    ensures full { OnErr result (vec_capacity out.old
        < vec_len out.old + length (counted T.spelled list.now)) }
    ensures capacity { vec_capacity out.old ≤ vec_capacity out.new }
{
    put_number(out, list.len() as u64)?;
    put_items(out, list.as_slice())
}

/// Puts the items at the end.
pub fn put_items<T: Spell>(out: &mut Vec<u8>, items: &[T]) -> Result<(), AllocError>
    ensures ok { OnOk result (out.new.items ≡ out.old.items ++ flat_map T.spelled items.now) }
    ensures len { OnOk result (vec_len out.new ≡ vec_len out.old + length (flat_map T.spelled items.now)) }
    ensures full { OnErr result (vec_capacity out.old
        < vec_len out.old + length (flat_map T.spelled items.now)) }
    ensures capacity { vec_capacity out.old ≤ vec_capacity out.new }
{
    'items: for item in items {
        item.put(out)?;
    }
    Ok(())
}
