// Where hashes stand in the slots.
ghost use Rattle.std.specs.Prelude.{◌≡◌, ◌≢◌, ◌+◌, ◌*◌, ◌/◌, ◌%◌, ◌≤◌, ◌<◌, ◌^◌, ℕ, true, false, if◌then◌else◌, is_some, length, None, Some};
ghost use Rattle.shard_table.specs.Slots.{home_slot, limit_of, slot_at, gather, Passed, IsSize, IsFirstSlot, IsPlace, ArePlacedSlots, IsSound, IsOpen, IsShifted};
ghost use Rattle.shard_table.specs.Entries.{lookup};
ghost use Rattle.cbdc_model.specs.Records.{Digest, same_digest};

use crate::Kept;
use crate::pages::Pages;
use base_types::Hash;
use byteorder::{ByteOrder, LittleEndian};

// What is left of a number by the number of slots.
fn masked(number: u64, homes: usize) -> usize
    requires size { IsSize homes }
    requires some { homes ≢ 0 }
    ensures { result ≡ number % homes }
{
    (number & (homes as u64 - 1)) as usize
}

/// The slot that the search for a hash begins at.
#[tactic(auto, unfolding(crate::specs::Slots::home_slot))]
pub fn home(homes: usize, x: &Hash) -> usize
    requires { IsSize homes }
    ensures value { result ≡ home_slot homes x.now }
    ensures below { 0 < homes → result < homes }
    ensures high { result ≤ homes }
{
    if homes == 0 {
        return 0;
    }
    masked(LittleEndian::read_u64(&x.0[8..16]), homes)
}

fn is_same_hash(x: &Hash, y: &Hash) -> bool
    ensures { result ≡ same_digest x.now y.now }
{
    x == y
}

// Whether slot m is passed on the way up from a home to a slot.
fn is_passed(home: usize, at: usize, m: usize) -> bool
    ensures yes { result ≡ true → Passed home at m }
    ensures no { result ≡ false → Passed home at m → ⊥ }
{
    if home <= at {
        home <= m && m < at
    } else {
        home <= m || m < at
    }
}

// The first slot from `from` on and below `to` that is free or has the hash, or `to`.
fn first_in<V: Copy>(slots: &Pages<V>, from: usize, to: usize, x: &Hash) -> usize
    requires from { from ≤ to }
    requires to { to ≤ length slots.now }
    ensures { IsFirstSlot slots.now from to x.now result }
{
    for at in from..to {
        match slots.at(at) {
            Some(kept) => {
                if is_same_hash(&kept.hash, x) {
                    return at;
                }
            }
            None => return at,
        }
    }
    to
}

/// The first slot from a home on, up to the last one and on from the first one, that is free or has the hash, or the end.
pub fn place_of<V: Copy>(slots: &Pages<V>, home: usize, x: &Hash) -> usize
    requires { home ≤ length slots.now }
    ensures { IsPlace slots.now home x.now result }
{
    let end = slots.len();
    let place = first_in(slots, home, end, x);
    if place < end {
        return place;
    }
    let place = first_in(slots, 0, home, x);
    if place < home { place } else { end }
}

// Moves the hashes of these slots up, each into the gap if that is between its home and it. The gap where it is then,
// or none where a free slot was come to.
fn close_part<V: Copy>(slots: &mut Pages<V>, gap: usize, from: usize, to: usize) -> Option<usize>
    requires from { from ≤ to }
    requires to { to ≤ length slots.old }
    requires size { IsSize (length slots.old) }
    requires apart { (m : ℕ) → from ≤ m → m < to → m ≢ gap }
    requires opened { IsOpen slots.old (length slots.old) gap from }
    ensures len { length slots.new ≡ length slots.old }
    ensures kept { (x : Digest) → lookup (gather slots.new) x ≡ lookup (gather slots.old) x }
    ensures count { length (gather slots.new) ≡ length (gather slots.old) }
    ensures closed { result ≡ None → IsSound slots.new (length slots.old) }
    ensures opened { (g : ℕ) → result ≡ Some g
        → IsOpen slots.new (length slots.old) g to × IsShifted slots.old slots.new gap from to g }
{
    let homes = slots.len();
    let mut free = gap;
    for at in from..to {
        let Some(kept) = *slots.at(at) else {
            return None;
        };
        if is_passed(home(homes, &kept.hash), at, free) {
            slots.put(at, None);
            slots.put(free, Some(kept));
            free = at;
        }
    }
    Some(free)
}

/// Moves hashes behind a gap up, so that each is found from its home again.
pub fn close_up<V: Copy>(slots: &mut Pages<V>, gap: usize)
    requires size { IsSize (length slots.old) }
    requires opened { IsOpen slots.old (length slots.old) gap (gap + 1) }
    requires room { length (gather slots.old) + 1 < length slots.old }
    ensures len { length slots.new ≡ length slots.old }
    ensures sound { IsSound slots.new (length slots.old) }
    ensures kept { (x : Digest) → lookup (gather slots.new) x ≡ lookup (gather slots.old) x }
    ensures count { length (gather slots.new) ≡ length (gather slots.old) }
{
    let end = slots.len();
    if let Some(moved) = close_part(slots, gap, gap + 1, end) {
        close_part(slots, moved, 0, gap);
    }
}

/// What is kept under a hash.
pub fn get<V: Copy>(slots: &Pages<V>, x: &Hash) -> Option<V>
    requires size { IsSize (length slots.now) }
    requires sound { IsSound slots.now (length slots.now) }
    ensures { result ≡ lookup (gather slots.now) x.now }
{
    let end = slots.len();
    let place = place_of(slots, home(end, x), x);
    if place == end {
        return None;
    }
    match slots.at(place) {
        Some(kept) => Some(kept.value),
        None => None,
    }
}

/// Puts a hash that is not there into the first free slot from its home on.
pub fn fill<V: Copy>(slots: &mut Pages<V>, kept: Kept<V>)
    requires size { IsSize (length slots.old) }
    requires sound { IsSound slots.old (length slots.old) }
    requires room { length (gather slots.old) < length slots.old }
    requires absent { lookup (gather slots.old) kept.hash ≡ None }
    ensures len { length slots.new ≡ length slots.old }
    ensures sound { IsSound slots.new (length slots.old) }
    ensures kept { (x : Digest) → lookup (gather slots.new) x
        ≡ (if same_digest kept.hash x then Some kept.value else lookup (gather slots.old) x) }
    ensures count { length (gather slots.new) ≡ length (gather slots.old) + 1 }
{
    let place = place_of(slots, home(slots.len(), &kept.hash), &kept.hash);
    slots.put(place, Some(kept));
}

/// Takes a hash out, if it is there.
pub fn take_out<V: Copy>(slots: &mut Pages<V>, x: &Hash) -> Option<V>
    requires size { IsSize (length slots.old) }
    requires sound { IsSound slots.old (length slots.old) }
    requires room { length (gather slots.old) ≤ limit_of (length slots.old) }
    ensures value { result ≡ lookup (gather slots.old) x.now }
    ensures len { length slots.new ≡ length slots.old }
    ensures sound { IsSound slots.new (length slots.old) }
    ensures kept { (y : Digest)
        → lookup (gather slots.new) y ≡ (if same_digest x.now y then None else lookup (gather slots.old) y) }
    ensures count { length (gather slots.new) + (if is_some result then 1 else 0)
        ≡ length (gather slots.old) }
{
    let end = slots.len();
    let place = place_of(slots, home(end, x), x);
    if place == end {
        return None;
    }
    let Some(kept) = *slots.at(place) else {
        return None;
    };
    slots.put(place, None);
    close_up(slots, place);
    Some(kept.value)
}
