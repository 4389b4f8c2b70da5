// The rows.
ghost use Rattle.node_lock.specs.Seats.{IsSeatOf};

use crate::book::{Answer, Ask, Book, Line};
use crate::gates::{AloneGate, KeepGate, MeetGate, RowGate};
use crate::lanes::{count_in_order, point_of, write_all, write_lent};
use cbdc_types::{Hash, Header, LaneId, NodeId, Shape};
use node_lock::{Guarded, Node, Seat};
use outside::When;
use std::alloc::Global;
use std::sync::Wait;
use std::thread::{Threads, join};

// The two lanes that write, the lane of the first line, and a number that no lane has.
const ONE: LaneId = LaneId(1);

const TWO: LaneId = LaneId(2);

const OLD: LaneId = LaneId(9);

const NONE: LaneId = LaneId(32);

// A book with one line.
fn opened(alloc: Global) -> Option<Book> {
    let header = Header {
        node: NodeId(0),
        shape: Shape::new(1, 1, 16, 1).ok()?,
        genesis: Hash([0; 32]),
    };
    let mut book = Book::new(alloc, header);
    let mut line = Line {
        lane: OLD,
        number: 7,
    };
    if book.step(&mut line) {
        Some(book)
    } else {
        None
    }
}

// What two lanes left, and how many lines each wrote.
#[derive(Drop)]
struct Left {
    book: Book,
    first: u32,
    second: u32,
}

// Two lanes that write so many lines, each on a thread of its own.
fn write_beside<R: Threads + Wait + Sync>(
    rt: &R,
    alloc: Global,
    count: u32,
    gate: &RowGate,
) -> Option<Left> {
    let book = opened(alloc)?;
    let (guarded, mut seats) = Guarded::new(alloc, book, &[ONE, TWO]).ok()?;
    let two = seats.pop().unwrap();
    let one = seats.pop().unwrap();
    let (first, second) = join(
        rt,
        || write_all(rt, &guarded, one, 0, count, gate),
        || write_all(rt, &guarded, two, 0, count, gate),
    );
    seats.push_reserved(first.0);
    seats.push_reserved(second.0);
    Some(Left {
        book: guarded.close(seats),
        first: first.1,
        second: second.1,
    })
}

/// Two lanes make 100 calls each on a book that has one line.
pub fn two_threads<R: Threads + Wait + Sync>(rt: &R, alloc: Global) -> Option<bool> {
    let left = write_beside(rt, alloc, 100, &RowGate::Open)?;
    let lines = left.book.lines();
    let count = lines.len();
    let counts = (
        count_in_order(lines, OLD, 7),
        count_in_order(lines, ONE, 0),
        count_in_order(lines, TWO, 0),
    );
    let written = (left.first, left.second);
    drop(left);
    Some(count == 201 && written == (100, 100) && counts == (Some(1), Some(100), Some(100)))
}

// How many lines a look is told of: those of the first line's lane, and those of the lane that writes.
fn looked(answer: Answer) -> Option<(u64, u64)> {
    let Answer::Listed(Ok(lines)) = answer else {
        return None;
    };
    Some((
        count_in_order(lines.as_slice(), OLD, 7)?,
        count_in_order(lines.as_slice(), ONE, 0)?,
    ))
}

fn counted(answer: Answer) -> Option<usize> {
    match answer {
        Answer::Counted(count) => Some(count),
        Answer::Listed(_) => None,
    }
}

// A lane writes three lines and looks; another only looks, ahead of it and behind it. Whether both see what was written.
fn are_shown<R: Wait>(
    rt: &R,
    guarded: &Guarded<Book>,
    one: &mut Seat<Book>,
    auditor: &mut Seat<Book>,
) -> bool
    requires one { IsSeatOf guarded.now one.old }
    requires auditor { IsSeatOf guarded.now auditor.old }
    ensures one { IsSeatOf guarded.now one.new }
    ensures auditor { IsSeatOf guarded.now auditor.new }
{
    let before = counted(guarded.look(rt, auditor, &Ask::Count));
    let written = write_lent(rt, guarded, one, 0, 3, &RowGate::Open);
    let own = looked(guarded.look(rt, one, &Ask::Lines));
    let seen = looked(guarded.look(rt, auditor, &Ask::Lines));
    let after = counted(guarded.look(rt, auditor, &Ask::Count));
    let told = own == Some((1, 3)) && seen == own;
    told && written == 3 && (before, after) == (Some(1), Some(4))
}

/// A lane writes three lines and looks; one that only looks sees them too, and the book as it is at the end.
pub fn looks<R: Threads + Wait + Sync>(rt: &R, alloc: Global) -> Option<bool> {
    let book = opened(alloc)?;
    let (guarded, mut seats) = Guarded::new(alloc, book, &[ONE, NONE]).ok()?;
    let mut auditor = seats.pop().unwrap();
    let mut one = seats.pop().unwrap();
    let told = are_shown(rt, &guarded, &mut one, &mut auditor);
    seats.push_reserved(one);
    seats.push_reserved(auditor);
    let book = guarded.close(seats);
    let count = book.lines().len();
    drop(book);
    Some(told && count == 4)
}

// Whether the gate that holds one lane until the other has come lets both go.
fn has_met<R: Threads + Wait + Sync>(rt: &R, alloc: Global, gate: RowGate) -> Option<bool> {
    let left = write_beside(rt, alloc, 1, &gate)?;
    let count = left.book.lines().len();
    let written = (left.first, left.second);
    drop(left);
    Some(gate.has_met() && count == 3 && written == (1, 1))
}

/// Each lane waits before its call, in turn, until the other has made its own.
pub fn beside_each_other<R: Threads + Wait + Sync>(rt: &R, alloc: Global) -> Option<bool> {
    let first = MeetGate::new(point_of(ONE, When::Before), point_of(TWO, When::After), 0);
    let second = MeetGate::new(point_of(TWO, When::Before), point_of(ONE, When::After), 0);
    Some(has_met(rt, alloc, RowGate::Meet(first))? && has_met(rt, alloc, RowGate::Meet(second))?)
}

/// A lane has the node and keeps it for long; the other comes then, and waits for its turn.
pub fn waits<R: Threads + Wait + Sync>(rt: &R, alloc: Global) -> Option<bool> {
    let gate = MeetGate::new(
        point_of(TWO, When::Before),
        point_of(ONE, When::Inside),
        100_000,
    );
    has_met(rt, alloc, RowGate::Meet(gate))
}

/// A lane has the node and keeps it until the other goes on from before it, and for long then; the other does not come inside meanwhile.
pub fn keeps_out<R: Threads + Wait + Sync>(rt: &R, alloc: Global) -> Option<bool> {
    let gate = AloneGate::new(
        point_of(ONE, When::Inside),
        point_of(TWO, When::Before),
        100_000,
    );
    has_met(rt, alloc, RowGate::Alone(gate))
}

/// A call passes the gate before, inside and after.
pub fn three_points<R: Threads + Wait + Sync>(rt: &R, alloc: Global) -> Option<bool> {
    let book = opened(alloc)?;
    let (guarded, mut seats) = Guarded::new(alloc, book, &[ONE]).ok()?;
    let mut one = seats.pop().unwrap();
    let gate = RowGate::Keep(KeepGate::new(point_of(ONE, When::Before)));
    let written = write_lent(rt, &guarded, &mut one, 0, 2, &gate);
    let passed = gate.passed();
    drop(gate);
    seats.push_reserved(one);
    let book = guarded.close(seats);
    let count = book.lines().len();
    drop(book);
    Some(passed == 123_123 && written == 2 && count == 3)
}
