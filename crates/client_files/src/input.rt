// The bytes of a file.
ghost use Rattle.std.specs.Prelude.{◌≡◌, ◌+◌, ◌-◌, ◌≤◌, ◌<◌, ◌++◌, ℕ, List, length, take, drop, min, Some, IfOk, IsTrue, IsErrOf, ◌↔◌};
ghost use Rattle.outside.specs.Counts.{Rose};
ghost use Rattle.outside.specs.Images.{Tells};

use crate::FetchFault;
use crate::places::LIMIT;
use cbdc_types::List;
use outside::{Failed, Inbox};
use std::alloc::Global;

/// How many bytes are asked for at once.
pub(crate) const PIECE: usize = 65_536;

// Reads what comes next of a file, at most so much of it, into this buffer, and from there behind these bytes. None at its end.
fn read_into<I: Inbox>(
    inbox: &mut I,
    name: &str,
    bytes: &mut Vec<u8>,
    room: usize,
    buf: &mut [u8],
) -> Result<usize, FetchFault>
    requires room { 0 < room }
    requires some { 0 < length buf.old }
    ensures bytes { IfOk result (λ n. Tells (I.file inbox.old name.now)
        (λ c. bytes.new.items ≡ bytes.old.items ++ take n (drop (length bytes.old.items) c))) }
    ensures len { IfOk result (λ n. (length bytes.new.items ≡ length bytes.old.items + n) × (n ≤ room)) }
    ensures end { IfOk result
        (λ n. Tells (I.file inbox.old name.now) (λ c. n ≡ 0 → length c ≤ length bytes.old.items)) }
    ensures same { (other : List ℕ) → I.file inbox.new other ≡ I.file inbox.old other }
    ensures later { (other : List ℕ) → I.count inbox.old other ≤ I.count inbox.new other }
    ensures failed { IsErrOf result FetchFault.ReadFault
        → Rose (I.count inbox.old name.now) (I.count inbox.new name.now) }
{
    let len = buf.len().min(room);
    let piece = &mut buf[..len];
    match inbox.read(name, bytes.len() as u64, piece) {
        Err(Failed) => Err(FetchFault::ReadFault),
        Ok(n) => match bytes.extend_from_slice(&piece[..n]) {
            Ok(()) => Ok(n),
            Err(_) => Err(FetchFault::Memory),
        },
    }
}

// Reads what comes next of a file, none at its end.
fn read_more<I: Inbox>(
    inbox: &mut I,
    name: &str,
    bytes: &mut Vec<u8>,
    room: usize,
) -> Result<usize, FetchFault>
    requires { 0 < room }
    ensures bytes { IfOk result (λ n. Tells (I.file inbox.old name.now)
        (λ c. bytes.new.items ≡ bytes.old.items ++ take n (drop (length bytes.old.items) c))) }
    ensures len { IfOk result (λ n. (length bytes.new.items ≡ length bytes.old.items + n) × (n ≤ room)) }
    ensures end { IfOk result
        (λ n. Tells (I.file inbox.old name.now) (λ c. n ≡ 0 → length c ≤ length bytes.old.items)) }
    ensures same { (other : List ℕ) → I.file inbox.new other ≡ I.file inbox.old other }
    ensures later { (other : List ℕ) → I.count inbox.old other ≤ I.count inbox.new other }
    ensures failed { IsErrOf result FetchFault.ReadFault
        → Rose (I.count inbox.old name.now) (I.count inbox.new name.now) }
{
    let mut buf = [0u8; PIECE];
    read_into(inbox, name, bytes, room, &mut buf)
}

/// Whether the file goes on behind a place.
pub(crate) fn is_longer<I: Inbox>(inbox: &mut I, name: &str, at: usize) -> Result<bool, FetchFault>
    ensures more { IfOk result (λ b. Tells (I.file inbox.old name.now) (λ c. IsTrue b ↔ (at < length c))) }
    ensures same { (other : List ℕ) → I.file inbox.new other ≡ I.file inbox.old other }
    ensures later { (other : List ℕ) → I.count inbox.old other ≤ I.count inbox.new other }
    ensures failed { IsErrOf result FetchFault.ReadFault
        → Rose (I.count inbox.old name.now) (I.count inbox.new name.now) }
{
    let mut next = [0u8; 1];
    match inbox.read(name, at as u64, &mut next) {
        Err(Failed) => Err(FetchFault::ReadFault),
        Ok(n) => Ok(n > 0),
    }
}

/// The first 2^30 bytes of a file, and whether it goes on behind them.
///
/// The first 2^30 bytes and whether there are more, where the inbox tells the file; ReadFault only where the count rose; files stay.
pub fn fetch<I: Inbox>(
    alloc: Global,
    inbox: &mut I,
    name: &str,
) -> Result<(List<u8>, bool), FetchFault>
    ensures bytes { IfOk result (λ r. Tells (I.file inbox.old name.now) (λ c. r.0 ≡ take 1073741824 c)) }
    ensures more { IfOk result
        (λ r. Tells (I.file inbox.old name.now) (λ c. IsTrue r.1 ↔ (1073741824 < length c))) }
    ensures same { (other : List ℕ) → I.file inbox.new other ≡ I.file inbox.old other }
    ensures later { (other : List ℕ) → I.count inbox.old other ≤ I.count inbox.new other }
    ensures failed { IsErrOf result FetchFault.ReadFault
        → Rose (I.count inbox.old name.now) (I.count inbox.new name.now) }
{
    let mut bytes = Vec::new(alloc);
    'pieces: while bytes.len() < LIMIT {
        let room = LIMIT - bytes.len();
        if read_more(inbox, name, &mut bytes, room)? == 0 {
            return Ok((List::from_vec(bytes), false));
        }
    }
    let more = is_longer(inbox, name, LIMIT)?;
    Ok((List::from_vec(bytes), more))
}
