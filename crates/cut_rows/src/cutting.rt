// Cuts, and what an audit finds of them.
ghost use Rattle.std.specs.Prelude.{ℕ, All, ◌<◌, length, IsTrue};
ghost use Rattle.audit.specs.Rows.{read, journal_in, IsRecordPlace};

use crate::state::State;
use audit::{PartVerdict, Place, audit_part, record_at};
use cbdc_types::{FullTx, Record, UnsoundKind};
use cut_audit::{Cut, cut};
use row_records::{Known, Told};
use same_records::stamp_of;
use std::alloc::AllocError;
use std::thread::Threads;

/// What a row asks of a cut.
#[derive(Clone, Copy)]
pub enum Asked {
    /// Its stamp, and its records.
    Cut,
    /// What an audit finds of it.
    Part,
}

// The first so many records of a node.
fn front(rows: &[(u32, Record)], node: u32, most: usize, told: &mut Told) -> Vec<Record> {
    let mut all = Vec::new(told.alloc);
    for row in rows {
        if row.0 == node && all.len() < most {
            let copy: Result<Record, AllocError> = row.1.clone();
            if let Some(own) = told.made(copy) {
                told.push(&mut all, own);
            }
        }
    }
    all
}

// What was handed in.
fn handed_in(known: &Known, names: &[String], told: &mut Told) -> Vec<FullTx> {
    let mut all = Vec::new(told.alloc);
    for name in names {
        if let Some(tx) = told.given(known.full(name.as_str())) {
            if let Some(own) = told.made(tx.clone()) {
                told.push(&mut all, own);
            }
        }
    }
    all
}

// Whether each list has a record.
fn are_full(lists: &[&[Record]]) -> bool
    ensures { IsTrue result
        → (n : ℕ) → n < length lists.now → 0 < length (journal_in (read lists.now) n) }
{
    'lists: for n in 0..lists.len() {
        if lists[n].is_empty() {
            return false;
        }
    }
    true
}

// The node and the stamp of each record.
fn tell_places(lists: &[&[Record]], history: &[Place], told: &mut Told)
    requires { All (IsRecordPlace (read lists.now)) history.now }
{
    'places: for at in 0..history.len() {
        let place = history[at];
        told.word("at");
        told.number(u64::from(place.node));
        told.number(stamp_of(record_at(lists, place)).0);
    }
}

// What is wrong with a record.
fn tell_kind(kind: &UnsoundKind, told: &mut Told) {
    match kind {
        UnsoundKind::Cause => told.word("cause"),
        UnsoundKind::Unknown(_) => told.word("unknown"),
        UnsoundKind::Unfunded(_) => told.word("unfunded"),
        UnsoundKind::Unfinished => told.word("unfinished"),
    }
}

// What an audit finds of a cut.
fn tell_part<R: Threads + Sync>(
    rt: &R,
    state: &State,
    lists: &[&[Record]],
    history: &[Place],
    told: &mut Told,
)
    requires { All (IsRecordPlace (read lists.now)) history.now }
{
    let handed = handed_in(&state.known, state.handed.as_slice(), told);
    let Some(shape) = told.given(state.known.shape()) else {
        return;
    };
    let Some(mint) = told.given(state.known.mint()) else {
        return;
    };
    let found = audit_part(
        rt,
        told.alloc,
        &shape,
        lists,
        history,
        mint.coins.as_slice(),
        handed.as_slice(),
    );
    match told.made(found) {
        Some(PartVerdict::Sound(part)) => {
            told.numbers(&[part.unspent, part.held, part.owed]);
            told.named("value", part.value);
            told.named("minted", part.minted);
        }
        Some(PartVerdict::Unsound { place, kind }) => {
            told.named("unsound", u128::from(place));
            tell_kind(&kind, told);
        }
        None => {}
    }
}

// What is asked of the cut of some lists.
fn tell_of<R: Threads + Sync>(
    rt: &R,
    state: &State,
    asked: Asked,
    lists: &[&[Record]],
    told: &mut Told,
) {
    if lists.is_empty() || 80 < lists.len() || !are_full(lists) {
        told.refuse("a list without a record");
        return;
    }
    match cut(told.alloc, lists) {
        Ok(Cut { stamp, history }) => {
            let places = history.as_slice();
            match asked {
                Asked::Cut => {
                    told.named("stamp", u128::from(stamp.0));
                    told.named("records", places.len() as u128);
                    tell_places(lists, places, told);
                }
                Asked::Part => tell_part(rt, state, lists, places, told),
            }
        }
        Err(_gone) => told.no_memory(),
    }
}

/// `cut N..` and `part N..`: what is asked of the cut of the first so many records of each node.
pub fn tell_cut<R: Threads + Sync>(
    rt: &R,
    state: &State,
    asked: Asked,
    words: &[&str],
    told: &mut Told,
) {
    let alloc = told.alloc;
    let mut fronts = Vec::new(alloc);
    for node in 0..words.len().min(80) as u32 {
        let most = told.small_at(words, node as usize) as usize;
        let list = front(state.rows.as_slice(), node, most, told);
        told.push(&mut fronts, list);
    }
    let mut lists = Vec::new(alloc);
    for list in &fronts {
        told.push(&mut lists, list.as_slice());
    }
    tell_of(rt, state, asked, lists.as_slice(), told);
}
