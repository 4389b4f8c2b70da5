// Reading fields from left to right. Each reader gives what it read and the bytes behind it.
ghost use Rattle.std.specs.Prelude.{◌≡◌, ◌≤◌, List, ℕ, length, take, drop, IfOk, Result};
ghost use Rattle.byte_fields.specs.declared.fault.Fault.{Fault as TheFault};
ghost use Rattle.byte_fields.specs.Faults.{Gives};
ghost use Rattle.byte_fields.specs.Reading.{field_at, number_at, hash_at, items_at, list_at, number_of, hash_of};

use crate::fault::{Fault, ReadError};
use byteorder::{ByteOrder, LittleEndian};
use cbdc_types::{Hash, InputKind, List};
use std::alloc::Global;

/// The first bytes of a field, and what is behind it.
pub fn split(bytes: &[u8], n: usize) -> Result<(&[u8], &[u8]), ReadError>
    ensures split { Gives (λ x. (x.0.now, x.1.now)) result (field_at n (λ b. b) bytes.now) }
    ensures len { IfOk result (λ x. length x.0.now ≡ n) }
{
    if bytes.len() < n {
        return Err(ReadError::Bad(Fault {
            left: bytes.len(),
            kind: InputKind::Cut,
        }));
    }
    Ok(bytes.split_at(n))
}

/// The number that the first eight bytes spell.
pub fn number_in(bytes: &[u8]) -> u64
    requires { 8 ≤ length bytes.now }
    ensures { result ≡ number_of bytes.now }
{
    LittleEndian::read_u64(bytes)
}

/// The hash that the first 32 bytes are.
pub fn hash_in(bytes: &[u8]) -> Hash
    requires { 32 ≤ length bytes.now }
    ensures { result ≡ hash_of bytes.now }
{
    let mut hash = [0u8; 32];
    hash.copy_from_slice(&bytes[..32]);
    Hash(hash)
}

/// A number.
pub fn number(bytes: &[u8]) -> Result<(u64, &[u8]), ReadError>
    ensures { Gives (λ x. (x.0, x.1.now)) result (number_at bytes.now) }
{
    let (field, rest) = split(bytes, 8)?;
    Ok((number_in(field), rest))
}

/// A hash.
pub fn hash(bytes: &[u8]) -> Result<(Hash, &[u8]), ReadError>
    ensures { Gives (λ x. (x.0, x.1.now)) result (hash_at bytes.now) }
{
    let (field, rest) = split(bytes, 32)?;
    Ok((hash_in(field), rest))
}

/// What can be read one after another.
pub trait Item: Sized + Drop {
    ghost item_at: { List ℕ → Result (Self × List ℕ) TheFault };

    /// The item at the front of the bytes, and what is behind it.
    fn read(alloc: Global, bytes: &[u8]) -> Result<(Self, &[u8]), ReadError>
        ensures { Gives (λ x. (x.0, x.1.now)) result (item_at bytes.now) };
}

impl Item for Hash {
    ghost item_at = { hash_at };

    fn read(_alloc: Global, bytes: &[u8]) -> Result<(Hash, &[u8]), ReadError> {
        hash(bytes)
    }
}

/// So many items, in memory for just so many: each has at least a byte, so a number that is too large takes no more than the bytes ask for.
pub fn items<T: Item>(
    alloc: Global,
    count: u64,
    bytes: &[u8],
) -> Result<(List<T>, &[u8]), ReadError>
    ensures { Gives (λ x. (x.0, x.1.now)) result (items_at T.item_at count bytes.now) }
{
    let room = count.min(bytes.len() as u64) as usize;
    let mut items = List::from_vec(Vec::with_capacity(alloc, room)?);
    let mut rest = bytes;
    'items: for i in 0..count {
        let (item, after) = T::read(alloc, rest)?;
        items.push(item)?;
        rest = after;
    }
    Ok((items, rest))
}

/// A list of at most so many items, behind their number. A greater number is TooMany.
#[tactic(auto, unfolding(crate::specs::Reading::list_at))]
pub fn list<T: Item>(alloc: Global, limit: u64, bytes: &[u8]) -> Result<(List<T>, &[u8]), ReadError>
    ensures { Gives (λ x. (x.0, x.1.now)) result (list_at limit T.item_at bytes.now) }
{
    let (count, rest) = number(bytes)?;
    if count > limit {
        return Err(ReadError::Bad(Fault {
            left: bytes.len(),
            kind: InputKind::TooMany,
        }));
    }
    items(alloc, count, rest)
}
