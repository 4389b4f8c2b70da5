// The transactions of a client file, read in pieces.
ghost use Rattle.std.specs.Prelude.{◌≡◌, ◌+◌, ◌-◌, ◌≤◌, ◌<◌, ℕ, List as Items, [], ◌++◌, length, false, Ok, Err, IfOk, IfErr};
ghost use Rattle.outside.specs.Images.{Tells};
ghost use Rattle.byte_fields.specs.Reading.{number_at, items_at};
ghost use Rattle.byte_fields.specs.Transactions.{transaction_at};
ghost use Rattle.tx_codec.specs.Feeds.{IsGoing};
ghost use Rattle.client_files.specs.Files.{front, goes_on, bad_at};
ghost use Rattle.client_files.specs.Streams.{OfRead, IsFileEnd, HasMore, TookPieces, MeetsBadField, IsFileCut, GoesOn, Stops, FileHolds, count_at};
ghost use Rattle.base_types.specs.declared.faults.InputKind.TheVariants as kinds;
ghost use Rattle.client_files.specs.declared.fault.StreamFault.TheVariants as faults;

use crate::input::{PIECE, is_longer};
use crate::places::{LIMIT, place};
use crate::window::Window;
use crate::{FetchFault, StreamFault};
use byte_fields::{Fault, number_in};
use cbdc_types::{FullTx, InputKind, List};
use outside::{Failed, Inbox};
use std::alloc::Global;
use tx_codec::{Fed, ReadFault, TxFeed};

// One read of what comes next of a file, at most so much of it, into this buffer. None at its end.
fn read_next<I: Inbox>(
    inbox: &mut I,
    name: &str,
    window: &mut Window,
    room: usize,
    buf: &mut [u8],
) -> Result<usize, StreamFault>
    requires some { (0 < room) × (0 < length buf.old) }
    requires room { window.old.had + room ≤ 1073741824 }
    ensures more { IfOk result (λ n. HasMore (I.file inbox.old name.now) window.old window.new n) }
    ensures fault { IfErr result
        (Stops (λ bad. ⊥) (I.count inbox.old name.now) (I.count inbox.new name.now)) }
    ensures same { (other : Items ℕ) → I.file inbox.new other ≡ I.file inbox.old other }
    ensures later { (other : Items ℕ) → I.count inbox.old other ≤ I.count inbox.new other }
{
    let len = buf.len().min(room);
    let piece = &mut buf[..len];
    match inbox.read(name, window.had() as u64, piece) {
        Err(Failed) => Err(StreamFault::ReadFault),
        Ok(n) => match window.put(&piece[..n]) {
            Ok(()) => Ok(n),
            Err(_) => Err(StreamFault::Memory),
        },
    }
}

// One read of what comes next of a file. None at its end, and where no more of it is read.
fn more<I: Inbox>(inbox: &mut I, name: &str, window: &mut Window) -> Result<usize, StreamFault>
    ensures more { IfOk result (λ n. HasMore (I.file inbox.old name.now) window.old window.new n) }
    ensures fault { IfErr result
        (Stops (λ bad. ⊥) (I.count inbox.old name.now) (I.count inbox.new name.now)) }
    ensures same { (other : Items ℕ) → I.file inbox.new other ≡ I.file inbox.old other }
    ensures later { (other : Items ℕ) → I.count inbox.old other ≤ I.count inbox.new other }
{
    let room = LIMIT - window.had();
    if room == 0 {
        return Ok(0);
    }
    let mut buf = [0u8; PIECE];
    read_next(inbox, name, window, room, &mut buf)
}

// Whether a file of which no more is read goes on there.
fn is_cut_off<I: Inbox>(inbox: &mut I, name: &str, had: usize) -> Result<bool, StreamFault>
    requires { had ≤ 1073741824 }
    ensures more { IfOk result (λ b. IsFileEnd (I.file inbox.old name.now) had → OfRead
        (I.file inbox.old name.now) had (λ bytes. Tells (I.file inbox.old name.now) (λ c. b ≡ goes_on c))) }
    ensures fault { IfErr result
        (Stops (λ bad. ⊥) (I.count inbox.old name.now) (I.count inbox.new name.now)) }
    ensures same { (other : Items ℕ) → I.file inbox.new other ≡ I.file inbox.old other }
    ensures later { (other : Items ℕ) → I.count inbox.old other ≤ I.count inbox.new other }
{
    if had < LIMIT {
        return Ok(false);
    }
    match is_longer(inbox, name, had) {
        Ok(longer) => Ok(longer),
        Err(FetchFault::ReadFault) => Err(StreamFault::ReadFault),
        Err(FetchFault::Memory) => Err(StreamFault::Memory),
    }
}

// A bad field at a place of the bytes that came.
fn bad(had: usize, more: bool, at: usize, kind: InputKind) -> StreamFault
    requires { at ≤ had }
    ensures { result ≡ faults.Bad (bad_at had more (had - at) kind) }
{
    StreamFault::Bad(place(
        had,
        more,
        &Fault {
            left: had - at,
            kind,
        },
    ))
}

// The field at this place, within which the bytes end.
fn cut<I: Inbox>(inbox: &mut I, name: &str, had: usize, at: usize) -> StreamFault
    requires at { at ≤ had }
    requires had { had ≤ 1073741824 }
    requires end { IsFileEnd (I.file inbox.old name.now) had }
    ensures fault { Stops (λ bad.
        OfRead (I.file inbox.old name.now) had (IsFileCut (I.file inbox.old name.now) had (had - at) bad))
        (I.count inbox.old name.now) (I.count inbox.new name.now) result }
    ensures same { (other : Items ℕ) → I.file inbox.new other ≡ I.file inbox.old other }
    ensures later { (other : Items ℕ) → I.count inbox.old other ≤ I.count inbox.new other }
{
    match is_cut_off(inbox, name, had) {
        Ok(more) => bad(had, more, at, InputKind::Cut),
        Err(fault) => fault,
    }
}

// The number at the front.
fn head<I: Inbox>(inbox: &mut I, name: &str, window: &mut Window) -> Result<u64, StreamFault>
    ensures taken { IfOk result
        (λ n. TookPieces (I.file inbox.old name.now) number_at window.old window.new n) }
    ensures fault { IfErr result (Stops (λ bad. OfRead (I.file inbox.old name.now) window.old.had
        (MeetsBadField (I.file inbox.old name.now) number_at window.old.unread bad))
        (I.count inbox.old name.now) (I.count inbox.new name.now)) }
    ensures same { (other : Items ℕ) → I.file inbox.new other ≡ I.file inbox.old other }
    ensures later { (other : Items ℕ) → I.count inbox.old other ≤ I.count inbox.new other }
{
    'pieces: while window.unread().len() < 8 {
        if more(inbox, name, window)? == 0 {
            return Err(cut(inbox, name, window.had(), window.place()));
        }
    }
    let (field, _) = window.unread().split_at(8);
    let number = number_in(field);
    window.take(8);
    Ok(number)
}

// The number of the transactions.
fn count_of<I: Inbox>(
    inbox: &mut I,
    name: &str,
    window: &mut Window,
    before: u64,
) -> Result<u64, StreamFault>
    ensures taken { IfOk result
        (λ n. TookPieces (I.file inbox.old name.now) (count_at before) window.old window.new n) }
    ensures fault { IfErr result (Stops (λ bad. OfRead (I.file inbox.old name.now) window.old.had
        (MeetsBadField (I.file inbox.old name.now) (count_at before) window.old.unread bad))
        (I.count inbox.old name.now) (I.count inbox.new name.now)) }
    ensures same { (other : Items ℕ) → I.file inbox.new other ≡ I.file inbox.old other }
    ensures later { (other : Items ℕ) → I.count inbox.old other ≤ I.count inbox.new other }
{
    let at = window.place();
    let count = head(inbox, name, window)?;
    if before.saturating_add(count) > 1_000_000 {
        return Err(bad(window.had(), false, at, InputKind::TooMany));
    }
    Ok(count)
}

// What is wrong with a transaction that begins at a place, where the file ends within it.
fn cut_tx<I: Inbox>(
    inbox: &mut I,
    name: &str,
    had: usize,
    start: usize,
    feed: &TxFeed,
) -> StreamFault
    requires going { IsGoing feed.now.state }
    requires start { start + length feed.now.bytes ≡ had }
    requires had { had ≤ 1073741824 }
    requires end { IsFileEnd (I.file inbox.old name.now) had }
    ensures fault { Stops (λ bad. OfRead (I.file inbox.old name.now) had
        (λ bytes. MeetsBadField (I.file inbox.old name.now) transaction_at feed.now.bytes bad bytes))
        (I.count inbox.old name.now) (I.count inbox.new name.now) result }
    ensures same { (other : Items ℕ) → I.file inbox.new other ≡ I.file inbox.old other }
    ensures later { (other : Items ℕ) → I.count inbox.old other ≤ I.count inbox.new other }
{
    let at = match feed.end() {
        Some(field) => field.at,
        None => 0,
    };
    cut(inbox, name, had, start + at)
}

// The transaction at the front. One that lies whole in a piece is read where it lies.
fn next_tx<I: Inbox>(
    alloc: Global,
    inbox: &mut I,
    name: &str,
    window: &mut Window,
) -> Result<FullTx, StreamFault>
    ensures taken { IfOk result
        (λ tx. TookPieces (I.file inbox.old name.now) transaction_at window.old window.new tx) }
    ensures fault { IfErr result (Stops (λ bad. OfRead (I.file inbox.old name.now) window.old.had
        (MeetsBadField (I.file inbox.old name.now) transaction_at window.old.unread bad))
        (I.count inbox.old name.now) (I.count inbox.new name.now)) }
    ensures same { (other : Items ℕ) → I.file inbox.new other ≡ I.file inbox.old other }
    ensures later { (other : Items ℕ) → I.count inbox.old other ≤ I.count inbox.new other }
{
    let start = window.place();
    let mut feed = TxFeed::new(alloc);
    'pieces: loop {
        match feed.push(window.unread()) {
            Ok(Fed::Done(tx, taken)) => {
                window.take(taken);
                return Ok(tx);
            }
            Ok(Fed::More) => {
                window.take_all();
                if more(inbox, name, window)? == 0 {
                    return Err(cut_tx(inbox, name, window.had(), start, &feed));
                }
            }
            Err(ReadFault::Bad(field)) => {
                return Err(bad(window.had(), false, start + field.at, field.kind));
            }
            Err(ReadFault::Memory) => return Err(StreamFault::Memory),
        }
    }
}

// So many transactions.
fn txs_of<I: Inbox>(
    alloc: Global,
    inbox: &mut I,
    name: &str,
    window: &mut Window,
    count: u64,
) -> Result<List<FullTx>, StreamFault>
    ensures taken { IfOk result (λ txs.
        TookPieces (I.file inbox.old name.now) (items_at transaction_at count) window.old window.new txs) }
    ensures fault { IfErr result (Stops (λ bad. OfRead (I.file inbox.old name.now) window.old.had
        (MeetsBadField (I.file inbox.old name.now) (items_at transaction_at count) window.old.unread bad))
        (I.count inbox.old name.now) (I.count inbox.new name.now)) }
    ensures same { (other : Items ℕ) → I.file inbox.new other ≡ I.file inbox.old other }
    ensures later { (other : Items ℕ) → I.count inbox.old other ≤ I.count inbox.new other }
{
    let mut txs = List::new(alloc);
    'txs: for i in 0..count {
        let tx = next_tx(alloc, inbox, name, window)?;
        match txs.push(tx) {
            Ok(()) => {}
            Err(_) => return Err(StreamFault::Memory),
        }
    }
    Ok(txs)
}

// The file goes on behind what was used.
fn extra(window: &Window, more: bool) -> StreamFault
    ensures { result ≡ faults.Bad (bad_at window.now.had more (length window.now.unread) kinds.Extra) }
{
    bad(window.had(), more, window.place(), InputKind::Extra)
}

// Nothing is behind the last transaction.
fn ended<I: Inbox>(inbox: &mut I, name: &str, window: &mut Window) -> Result<(), StreamFault>
    ensures whole { IfOk result (λ u. (window.old.unread ≡ [])
        × OfRead (I.file inbox.old name.now) window.old.had
        (λ bytes. Tells (I.file inbox.old name.now) (λ c. (bytes ≡ front c) × (false ≡ goes_on c)))) }
    ensures fault { IfErr result (Stops (λ bad. OfRead
        (I.file inbox.old name.now) window.old.had (GoesOn (I.file inbox.old name.now) window.old.unread bad))
        (I.count inbox.old name.now) (I.count inbox.new name.now)) }
    ensures same { (other : Items ℕ) → I.file inbox.new other ≡ I.file inbox.old other }
    ensures later { (other : Items ℕ) → I.count inbox.old other ≤ I.count inbox.new other }
{
    if !window.unread().is_empty() {
        return Err(extra(window, false));
    }
    if more(inbox, name, window)? > 0 {
        return Err(extra(window, false));
    }
    if is_cut_off(inbox, name, window.had())? {
        return Err(extra(window, true));
    }
    Ok(())
}

/// The transactions of a client file, as `fetch` and `read_clients` answer, where so many stand in the client files
/// before it. It is read in pieces of at most 65,536 bytes and never held whole, and no further than its first bad
/// field: what would be wrong behind that is not met.
pub fn stream_clients<I: Inbox>(
    alloc: Global,
    inbox: &mut I,
    name: &str,
    before: u64,
) -> Result<List<FullTx>, StreamFault>
    // What is answered is what the file holds, as far as it is told.
    ensures read { IfOk result (λ txs. FileHolds (I.file inbox.old name.now) before (Ok txs)) }
    ensures fault { IfErr result (Stops (λ bad. FileHolds (I.file inbox.old name.now) before (Err bad))
        (I.count inbox.old name.now) (I.count inbox.new name.now)) }
    ensures same { (other : Items ℕ) → I.file inbox.new other ≡ I.file inbox.old other }
    ensures later { (other : Items ℕ) → I.count inbox.old other ≤ I.count inbox.new other }
{
    let mut window = Window::new(alloc);
    let count = count_of(inbox, name, &mut window, before)?;
    let txs = txs_of(alloc, inbox, name, &mut window, count)?;
    ended(inbox, name, &mut window)?;
    Ok(txs)
}
