// Steps that make files and ledgers.
use crate::state::State;
use cbdc_types::NodeId;
use plain_check::Row;
use row_records::{Known, Told, put_word, rest, rows_in};

/// `files TX.. / TX..`: the files of a run, or what was submitted before; `files none` are none.
pub fn files(state: &mut State, kind: &str, words: &[&str], told: &mut Told) {
    let alloc = told.alloc;
    let mut names = String::new(alloc);
    for word in words {
        let done = put_word(&mut names, word);
        told.made(done);
    }
    told.made(state.files.put(alloc, kind, names));
}

// Copies of records that have the newest first, the oldest first.
fn oldest_first(rows: &[Row], told: &mut Told) -> Vec<Row> {
    let mut all = Vec::new(told.alloc);
    for row in rows.iter().rev() {
        if let Some(what) = told.made(row.what.clone()) {
            told.push(
                &mut all,
                Row {
                    node: row.node,
                    what,
                },
            );
        }
    }
    all
}

// Names a ledger whose records have the oldest first.
fn put_ledger(state: &mut State, name: &str, rows: Vec<Row>, told: &mut Told) {
    let alloc = told.alloc;
    let mut rows = rows;
    rows.reverse();
    told.made(state.ledgers.put(alloc, name, rows));
}

// The records that a ledger begins with: none, or those of `like OLD`.
fn first_rows(state: &State, words: &[&str], told: &mut Told) -> Vec<Row> {
    if words.len() > 1 {
        told.expect(words, 1, "like");
        oldest_first(state.rows(words, 2, told), told)
    } else {
        Vec::new(told.alloc)
    }
}

// Appends the records of lines.
fn put_rows(known: &Known, rows: &mut Vec<Row>, text: &str, told: &mut Told) {
    for (node, what) in rows_in(known, text, told) {
        let node = NodeId(node);
        told.push(rows, Row { node, what });
    }
}

/// `ledger NAME`, `ledger NAME like OLD`, and a line for each record that is new.
pub fn ledger(state: &mut State, words: &[&str], text: &str, told: &mut Told) {
    let name = told.word_at(words, 0);
    let mut rows = first_rows(state, words, told);
    put_rows(&state.known, &mut rows, text, told);
    put_ledger(state, name, rows, told);
}

// Where the record at a place of its node's stands among all, counted from the oldest; behind all where the node has none there.
fn place_in(rows: &[Row], node: NodeId, place: usize) -> usize {
    let (mut at, mut seen) = (0usize, 0usize);
    for row in rows {
        if row.node == node {
            if seen == place {
                return at;
            }
            seen = seen.saturating_add(1);
        }
        at = at.saturating_add(1);
    }
    rows.len()
}

// Puts a record in the place of its node's, counted from the oldest.
fn put_other(rows: &mut [Row], place: usize, other: Row, told: &mut Told) {
    let at = place_in(rows, other.node, place);
    match rows.get_mut(at) {
        Some(row) => *row = other,
        None => told.refuse("no such record"),
    }
}

/// `change LEDGER PLACE NODE RECORD`: it has another record at that place of the node's journal, counted from the oldest.
pub fn change(state: &mut State, words: &[&str], told: &mut Told) {
    let name = told.word_at(words, 0);
    let place = told.small_at(words, 1) as usize;
    if let Some(other) = state.row(rest(words, 2), told) {
        let mut rows = oldest_first(state.rows(words, 0, told), told);
        put_other(rows.as_mut_slice(), place, other, told);
        put_ledger(state, name, rows, told);
    }
}
