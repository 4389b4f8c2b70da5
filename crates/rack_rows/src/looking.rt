// Steps that look at what is there: each tells what came, which is then compared with what the row says.
use crate::disks::{DiskState, digits_of, kind_word, tell_gates, tell_records, text_of};
use crate::runs::Ran;
use crate::state::State;
use crate::verbs::Verb;
use crate::words::{count_at, hex_at};
use cbdc_types::NodeId;
use outside::{Disk, Point, When};
use row_records::{Block, Told, rest};

/// What stands behind `$`: the text that is printed, or `~` for any, and the status, or `any`.
pub fn check_run(text: &str, status: u64, block: &Block, told: &mut Told) {
    if !block.is_any {
        told.check_same(block.text.as_str(), text);
    }
    if !block.is_any_status && status != block.status {
        check_status(block.status, text, status, told);
    }
}

// Tells two statuses that differ, the one that came behind what was printed.
fn check_status(wanted: u64, text: &str, came: u64, told: &mut Told) {
    let (mut first, mut other) = (Told::new(told.alloc), Told::new(told.alloc));
    first.named("=", wanted as u128);
    other.put(text);
    other.named("=", came as u128);
    told.check_same(first.as_str(), other.as_str());
}

/// `same RACK`: all disks have the bytes of those that were kept.
pub fn same(state: &State, words: &[&str], told: &mut Told) {
    let wanted = state.rack(told.word_at(words, 0), told);
    let came = digits_of(&state.disks, told);
    told.check_same(wanted.as_str(), came.as_str());
}

// A disk has these bytes at a place.
fn check_bytes(disk: &[u8], at: usize, wanted: &[u8], told: &mut Told) {
    match disk.get(at..at.saturating_add(wanted.len())) {
        Some(came) => told.check_bytes(wanted, came),
        None => told.refuse("past the disk's end"),
    }
}

/// `bytes NODE AT DIGITS`: a disk has these bytes there.
pub fn bytes(state: &State, words: &[&str], told: &mut Told) {
    if let Some(disk) = state.disk(words, told) {
        let at = count_at(words, 1, told);
        let wanted = hex_at(words, 2, told);
        check_bytes(&disk.bytes, at, &wanted, told);
    }
}

// `used BYTES..`: how many bytes each disk has.
fn tell_used(came: &mut Told, disks: &[DiskState]) {
    for disk in disks {
        came.number(disk.bytes.len() as u64);
    }
}

// `asked KIND:NODE..`: what the last run asked of nodes, in order: the kinds of the records, and the nodes.
fn tell_asked(came: &mut Told, points: &[Point]) {
    for point in points {
        if point.when == When::Inside {
            came.word(kind_word(point.kind));
            came.put(":");
            came.put_shown(&point.node.0);
        }
    }
}

// The word of where a point lies about a lock.
fn when_word(when: When) -> &'static str {
    match when {
        When::Before => "before",
        When::Inside => "inside",
        When::After => "after",
    }
}

// `passed`, and a line `LANE NODE KIND WHEN` for each point that the last run passed, in order.
fn tell_passed(came: &mut Told, points: &[Point]) {
    for point in points {
        came.number(u64::from(point.lane.0));
        came.number(u64::from(point.node.0));
        came.word(kind_word(point.kind));
        came.word(when_word(point.when));
        came.line();
    }
}

// `fetched NAME..`: the files that the last run read, in order.
fn tell_fetched(came: &mut Told, files: &[String]) {
    for name in files {
        came.word(name.as_str());
    }
}

// `taken NODE..`: the nodes whose disks the last run took, in order.
fn tell_taken(came: &mut Told, nodes: &[NodeId]) {
    for node in nodes {
        came.number(u64::from(node.0));
    }
}

// `faults COUNT..`: how many calls of each disk failed in the last run.
fn tell_faults(came: &mut Told, ran: &Ran, disks: &[DiskState]) {
    let mut node = 0u32;
    for _ in disks {
        if let Some(disk) = ran.disk(node, came) {
            came.number(disk.faults());
        }
        node = node.saturating_add(1);
    }
}

// Tells the result of the last run's calls.
fn tell_of_run(state: &State, ran: &Ran, verb: Verb, came: &mut Told) {
    match verb {
        Verb::Asked => tell_asked(came, &ran.points),
        Verb::Passed => tell_passed(came, &ran.points),
        Verb::Fetched => tell_fetched(came, &ran.files),
        Verb::Taken => tell_taken(came, &ran.nodes),
        Verb::Faults => tell_faults(came, ran, &state.disks),
        _ => came.refuse("no such step"),
    }
}

// Tells what came: `used` of all disks, `gates NODE` and `journal NODE` of one, the others of the last run.
fn tell_came(state: &State, verb: Verb, words: &[&str], came: &mut Told) {
    match verb {
        Verb::Used => tell_used(came, &state.disks),
        Verb::Gates => {
            if let Some(disk) = state.disk(words, came) {
                tell_gates(came, &disk.bytes);
            }
        }
        Verb::Journal => {
            if let Some(disk) = state.disk(words, came) {
                tell_records(came, &disk.bytes);
            }
        }
        other => {
            if let Some(ran) = state.last_run(came) {
                tell_of_run(state, ran, other, came);
            }
        }
    }
}

// Words in a line.
fn line_of(words: &[&str], told: &mut Told) -> String {
    let mut own = Told::new(told.alloc);
    for word in words {
        own.word(word);
    }
    text_of(own, told)
}

// Nothing where what came is these words.
fn check_line(words: &[&str], came: &str, told: &mut Told) {
    let wanted = line_of(words, told);
    told.check_same(wanted.as_str(), came);
}

// What came.
fn came_of(state: &State, verb: Verb, words: &[&str], told: &mut Told) -> String {
    let mut own = Told::new(told.alloc);
    tell_came(state, verb, words, &mut own);
    text_of(own, told)
}

// What came is to be the step's words, behind those that say where it looks, or the text behind it.
fn check_came(verb: Verb, words: &[&str], text: &str, came: &str, told: &mut Told) {
    match verb {
        Verb::Journal | Verb::Passed => told.check_same(text, came),
        Verb::Gates => check_line(rest(words, 1), came, told),
        _ => check_line(words, came, told),
    }
}

/// Does a step that looks at what is there, and compares what came.
pub fn look(state: &State, verb: Verb, words: &[&str], text: &str, told: &mut Told) {
    let came = came_of(state, verb, words, told);
    check_came(verb, words, text, came.as_str(), told);
}
