// What a shard remembers of each lane, and the entries of a part with their replies.
use crate::state::Tables;
use cbdc_types::{Answered, Entry, LaneId, List, Record, Reply, Stamp};
use row_records::{Known, Told, part, record, rest};
use shard_core::{LaneSlot, Slots, answered};

/// `slots LANES`: idle ones.
pub fn make_slots(tables: &mut Tables, words: &[&str], told: &mut Told) {
    let lanes = told.small_at(words, 0);
    let made = Slots::new(told.alloc, lanes);
    tables.slots = told.made(made);
}

// The part that entries tell, `NAME@PLACE` each, at the first shard.
fn part_told(known: &Known, entries: &[&str], told: &mut Told) -> List<Entry> {
    match known.shape() {
        Ok(shape) => part(known, &shape, shape.coordinators(), entries, told),
        Err(wrong) => {
            told.fail(wrong);
            List::new(told.alloc)
        }
    }
}

// The same so many times.
fn repeated<T: Copy + Drop>(one: T, many: usize, told: &mut Told) -> List<T> {
    let mut all = Vec::new(told.alloc);
    for _ in 0..many {
        told.push(&mut all, one);
    }
    List::from_vec(all)
}

// `locked NUMBER STAMP NAME@PLACE..`, all of them Held
fn locked(known: &Known, words: &[&str], told: &mut Told) -> LaneSlot {
    let own = part_told(known, rest(words, 3), told);
    let held = repeated(Reply::Held, own.len(), told);
    let stamp = Stamp(told.number_at(words, 2));
    LaneSlot::Locked {
        number: told.number_at(words, 1),
        part: own,
        replies: held,
        locked_at: stamp,
    }
}

// `finished NUMBER STAMP STAMP NAME@PLACE..`, all of them Held and committed
fn finished(known: &Known, words: &[&str], told: &mut Told) -> LaneSlot {
    let own = part_told(known, rest(words, 4), told);
    let held = repeated(Reply::Held, own.len(), told);
    let given = repeated(true, own.len(), told);
    LaneSlot::Finished {
        number: told.number_at(words, 1),
        part: own,
        replies: held,
        decisions: given,
        locked_at: Stamp(told.number_at(words, 2)),
        finished_at: Stamp(told.number_at(words, 3)),
    }
}

// A slot: `idle NUMBER STAMP`, or one of the above.
fn slot(known: &Known, words: &[&str], told: &mut Told) -> LaneSlot {
    match told.word_at(words, 0) {
        "locked" => locked(known, words, told),
        "finished" => finished(known, words, told),
        _ => {
            told.expect(words, 0, "idle");
            told.at_most(words, 3);
            LaneSlot::Idle {
                number: told.number_at(words, 1),
                stamp: Stamp(told.number_at(words, 2)),
            }
        }
    }
}

// Tells where a slot is another one.
fn tell_same(told: &mut Told, is_same: bool) {
    if !is_same {
        told.word("another slot");
    }
}

const NO_LANE: &str = "no such lane";

// Puts a slot in a lane.
fn put_slot(slots: &mut Slots, lane: LaneId, own: LaneSlot, told: &mut Told) {
    if (lane.0 as usize) < slots.len() {
        slots.put(lane, own);
    } else {
        told.refuse(NO_LANE);
    }
}

// Looks at what stands in a lane, or takes it out.
fn compare_slot(slots: &mut Slots, action: &str, lane: LaneId, own: &LaneSlot, told: &mut Told) {
    if lane.0 as usize >= slots.len() {
        told.refuse(NO_LANE);
        return;
    }
    match action {
        "at" => tell_same(told, *slots.slot(lane) == *own),
        "take" => tell_same(told, slots.take(lane) == *own),
        _ => told.refuse("no such step"),
    }
}

// Tells how many slots there are.
fn count_slots(slots: &Slots, words: &[&str], told: &mut Told) {
    told.at_most(words, 1);
    told.number(slots.len() as u64);
    if slots.is_empty() {
        told.refuse("no slot");
    }
}

// Does a step of slots by its word.
fn on_slots(known: &Known, slots: &mut Slots, words: &[&str], told: &mut Told) {
    let action = told.word_at(words, 0);
    if action == "count" {
        count_slots(slots, words, told);
        return;
    }
    let lane = told.lane_at(words, 1);
    let own = slot(known, rest(words, 2), told);
    if action == "put" {
        put_slot(slots, lane, own, told);
    } else {
        compare_slot(slots, action, lane, &own, told);
    }
}

/// `slot count`, and how many there are; `slot put LANE SLOT`, `slot at LANE SLOT`, `slot take LANE SLOT`: one is put in a lane, stands there, or stands
/// there and is taken out.
pub fn slot_step(known: &Known, tables: &mut Tables, words: &[&str], told: &mut Told) {
    match &mut tables.slots {
        Some(slots) => on_slots(known, slots, words, told),
        None => told.refuse("no slots were made"),
    }
}

// The part of a Lock with these entries.
fn part_of(entries: &[Answered], told: &mut Told) -> Vec<Entry> {
    let mut part = Vec::new(told.alloc);
    for one in entries {
        if let Some(entry) = told.made(one.entry.clone()) {
            told.push(&mut part, entry);
        }
    }
    part
}

// The replies of a Lock with these entries.
fn replies_of(entries: &[Answered], told: &mut Told) -> Vec<Reply> {
    let mut replies = Vec::new(told.alloc);
    for one in entries {
        told.push(&mut replies, one.reply);
    }
    replies
}

// Tells how many entries a part and its replies come to, where they are these.
fn check_answered(entries: &[Answered], part: &[Entry], replies: &[Reply], told: &mut Told) {
    if part.len() != replies.len() {
        told.refuse("a reply is missing");
        return;
    }
    if let Some(came) = told.made(answered(told.alloc, part, replies)) {
        told.number(came.len() as u64);
        if came.as_slice() != entries {
            told.word("other entries");
        }
    }
}

// Tells how many entries there are, where they are those of a Lock with their replies.
fn tell_answered(entries: &[Answered], told: &mut Told) {
    let part = part_of(entries, told);
    let replies = replies_of(entries, told);
    check_answered(entries, &part, &replies, told);
}

/// `answered LOCK`, and how many entries it has: the entries of the Lock's part, each with its reply, are those of the Lock.
pub fn entries(known: &Known, words: &[&str], told: &mut Told) {
    let Some(shape) = told.given(known.shape()) else {
        return;
    };
    match &record(known, shape.coordinators(), words, told) {
        Some(Record::Lock { entries, .. }) => tell_answered(entries.as_slice(), told),
        _ => told.refuse("no Lock"),
    }
}
