// What the plain programs say of journals: of hashes and lanes behind each record, of sizes and room, of which record stands.
use crate::calls::ask_shard;
use crate::state::{State, journals_of};
use crate::verbs::Verb;
use cbdc_types::{Header, LaneId, List, Record, Shape};
use plain_check::{
    Listed, Phase, Row, first_refusal_of, is_after, is_caused, is_ordered, journal_of, kept_room,
    lane_room, need_of, size_of, slot_of, slot_stamp, status_of, used_of,
};
use record_grammar::is_in_grammar;
use row_records::{Told, rest, verdicts};

// Tells a number, or that there is none.
fn tell_number(told: &mut Told, own: Option<u64>) {
    told.stroke();
    match own {
        Some(n) => told.number(n),
        None => told.word("none"),
    }
}

// So many of the oldest of what stands with the newest first.
fn oldest<T>(all: &[T], many: usize) -> &[T] {
    let newer = all.len().saturating_sub(many);
    &all[newer..]
}

// `says LEDGER NODE HASH`, and what is known of the hash before the first record and behind each.
fn says(past: &[Record], words: &[&str], told: &mut Told) {
    let x = told.hash_at(words, 2);
    for many in 0..past.len().saturating_add(1) {
        told.stroke();
        told.status(&status_of(oldest(past, many), &x));
    }
}

fn phase_word(phase: &Phase) -> &'static str {
    match phase {
        Phase::Idle => "idle",
        Phase::InPrepare => "prepared",
        Phase::InCommit => "committed",
        Phase::InDiscard => "discarded",
        Phase::InLock => "locked",
        Phase::InFinish => "finished",
    }
}

// Tells `PHASE NUMBER STAMP` of a lane.
fn tell_slot(told: &mut Told, past: &[Record], lane: LaneId) {
    let slot = slot_of(past, lane);
    told.stroke();
    told.word(phase_word(&slot.phase));
    told.numbers(&[slot.number, slot_stamp(past, lane).0]);
}

// `slots LEDGER NODE LANE`, and `PHASE NUMBER STAMP` of the lane before the first record and behind each.
fn slots(past: &[Record], words: &[&str], told: &mut Told) {
    let lane = told.lane_at(words, 2);
    for many in 0..past.len().saturating_add(1) {
        tell_slot(told, oldest(past, many), lane);
    }
}

// A number of a journal's newest record: of its size, of what is used behind it, of what is kept.
fn size_in(shape: &Shape, past: &[Record], kind: u8) -> Option<u64> {
    match (kind, past.first()) {
        (0, Some(record)) => size_of(record),
        (1, _) => used_of(past),
        _ => kept_room(shape, past),
    }
}

// Tells such a number for each record, the oldest first, in a line.
fn tell_sizes(told: &mut Told, shape: &Shape, past: &[Record], kind: u8) {
    for many in 0..past.len() {
        let records = oldest(past, many.saturating_add(1));
        tell_number(told, size_in(shape, records, kind));
    }
    told.line();
}

// `sizes LEDGER NODE`, and of each record, the oldest first, its size, what is used behind it and what is kept: three lines.
fn sizes(state: &State, past: &[Record], told: &mut Told) {
    if let Some(shape) = told.given(state.known.shape()) {
        for kind in 0u8..3 {
            tell_sizes(told, &shape, past, kind);
        }
    }
}

// `room LEDGER NODE LANE`, and how many bytes are kept free for the lane's batch.
fn room(past: &[Record], words: &[&str], told: &mut Told) {
    let lane = told.lane_at(words, 2);
    tell_number(told, lane_room(past, lane));
}

// Tells `SIZE / NEED` of a record.
fn tell_need(state: &State, past: &[Record], next: &Record, told: &mut Told) {
    if let Some(shape) = told.given(state.known.shape()) {
        tell_number(told, size_of(next));
        tell_number(told, need_of(&shape, past, next));
    }
}

// `need LEDGER NODE RECORD`, and `SIZE / NEED` of that record there.
fn need(state: &State, past: &[Record], words: &[&str], told: &mut Told) {
    if let Some(next) = state.row(rest(words, 1), told) {
        tell_need(state, past, &next.what, told);
    }
}

// Does a step that looks at a journal, or asks the shard that has taken it in.
fn look_at(state: &State, verb: Verb, past: &[Record], words: &[&str], told: &mut Told) {
    match verb {
        Verb::Says => says(past, words, told),
        Verb::Slots => slots(past, words, told),
        Verb::Sizes => sizes(state, past, told),
        Verb::Room => room(past, words, told),
        Verb::Need => need(state, past, words, told),
        other => ask_shard(state, other, past, words, told),
    }
}

/// Does a step that looks at the journal of `LEDGER NODE`.
pub fn look_at_journal(state: &State, verb: Verb, words: &[&str], told: &mut Told) {
    let past = state.journal(words, told);
    look_at(state, verb, past.as_slice(), words, told);
}

/// `may NODE RECORD`, and `yes` or `no`: whether it is in the grammar of that node.
pub fn may(state: &State, words: &[&str], told: &mut Told) {
    let Some(row) = state.row(words, told) else {
        return;
    };
    if let Some(header) = told.given(state.known.header(row.node.0)) {
        told.yes(is_in_grammar(&header, &row.what));
    }
}

// Whether a record may come next at its node behind others.
fn may_come(header: &Header, rows: &[Row], next: &Row, told: &mut Told) -> bool {
    let alloc = told.alloc;
    match told.made(journal_of(alloc, next.node, rows)) {
        Some(own) => {
            let after = is_after(alloc, header, own.as_slice(), &next.what);
            told.made(after).unwrap_or(false)
        }
        None => false,
    }
}

// Whether others cause a record.
fn do_cause(shape: &Shape, rows: &[Row], next: &Row, told: &mut Told) -> bool {
    let all = journals_of(shape.node_count(), rows, told);
    let caused = is_caused(told.alloc, all.as_slice(), shape, next.node, &next.what);
    told.made(caused).unwrap_or(false)
}

// Whether a record may come next behind others, and whether they cause it.
fn judged(state: &State, rows: &[Row], next: &Row, told: &mut Told) -> (bool, bool) {
    match told.given(state.known.header(next.node.0)) {
        Some(header) => (
            may_come(&header, rows, next, told),
            do_cause(&header.shape, rows, next, told),
        ),
        None => (false, false),
    }
}

// Tells whether a record may come next at its node, and whether it is caused there.
fn tell_follows(state: &State, rows: &[Row], next: &Row, told: &mut Told) {
    let (after, caused) = judged(state, rows, next, told);
    told.word(if after { "after" } else { "not-after" });
    told.word(if caused { "caused" } else { "uncaused" });
}

/// `follows LEDGER NODE RECORD`, and two words: whether it may come next at the node, and whether it is caused there.
pub fn follows(state: &State, words: &[&str], told: &mut Told) {
    let rows = state.rows(words, 0, told);
    if let Some(next) = state.row(rest(words, 1), told) {
        tell_follows(state, rows, &next, told);
    }
}

// Whether the newest of these records may come next behind the others, caused by them.
fn newest_stands(state: &State, rows: &[Row], told: &mut Told) -> bool {
    match rows.split_first() {
        Some((newest, before)) => {
            let (after, caused) = judged(state, before, newest, told);
            after && caused
        }
        None => true,
    }
}

/// `unsound LEDGER`, and the place of the first record, as they are written, that does not stand on those before it, or `none`.
pub fn unsound(state: &State, words: &[&str], told: &mut Told) {
    let rows = state.rows(words, 0, told);
    for place in 0..rows.len() {
        if !newest_stands(state, oldest(rows, place.saturating_add(1)), told) {
            told.number(place as u64);
            return;
        }
    }
    told.word("none");
}

/// `ordered LEDGER yes`: whether the records, as they are written, stand by stamp and node.
pub fn ordered(state: &State, words: &[&str], told: &mut Told) {
    let rows = state.rows(words, 0, told);
    let wanted = told.word_at(words, 1);
    told.check_is(wanted, is_ordered(rows));
}

/// `refused TX VERDICT..`, and why, or `none`; behind the verdicts that are told all are absent.
pub fn refused(state: &State, words: &[&str], told: &mut Told) {
    let listed = Listed {
        verdicts: List::from_vec(verdicts(rest(words, 1), told)),
    };
    match state.known.full(told.word_at(words, 0)) {
        Ok(tx) => match first_refusal_of(tx, &listed) {
            Some(why) => told.refusal(&why),
            None => told.word("none"),
        },
        Err(wrong) => told.fail(wrong),
    }
}
