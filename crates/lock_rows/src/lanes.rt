// Lanes that write, one call after another.
ghost use Rattle.std.specs.Prelude.{◌≡◌};
ghost use Rattle.node_lock.specs.Seats.{knows, IsSeatOf};

use crate::book::{Book, Line};
use crate::gates::RowGate;
use cbdc_types::{LaneId, NodeId};
use node_lock::{Guarded, Seat};
use outside::{Point, When};
use std::sync::Wait;

/// The point of a lane's calls, when it lies so about the lock.
pub fn point_of(lane: LaneId, when: When) -> Point {
    Point {
        lane,
        node: NodeId(0),
        kind: 4,
        when,
    }
}

/// Writes the numbers from `first` on, `count` of them, by a seat that is lent, and tells how many were written.
pub fn write_lent<R: Wait>(
    rt: &R,
    guarded: &Guarded<Book>,
    seat: &mut Seat<Book>,
    first: u64,
    count: u32,
    gate: &RowGate,
) -> u32
    requires seat { IsSeatOf guarded.now seat.old }
    ensures seat { IsSeatOf guarded.now seat.new }
{
    let lane = seat.lane();
    let at = point_of(lane, When::Before);
    let mut written = 0u32;
    for i in 0..count {
        let mut line = Line {
            lane,
            number: first.saturating_add(u64::from(i)),
        };
        let done = guarded.call(rt, seat, &mut line, gate, &at);
        written = written.saturating_add(u32::from(done));
    }
    written
}

/// The same by a seat that is handed over, as to a thread, and given back.
pub fn write_all<R: Wait>(
    rt: &R,
    guarded: &Guarded<Book>,
    mut seat: Seat<Book>,
    first: u64,
    count: u32,
    gate: &RowGate,
) -> (Seat<Book>, u32)
    requires seat { IsSeatOf guarded.now seat }
    ensures seat { IsSeatOf guarded.now result.0 }
{
    let written = write_lent(rt, guarded, &mut seat, first, count, gate);
    (seat, written)
}

/// How many lines of a lane stand in the list, where they are numbered from `first` on in order; else none.
pub fn count_in_order(lines: &[Line], lane: LaneId, first: u64) -> Option<u64> {
    let mut count = 0u64;
    for line in lines {
        if line.lane == lane {
            if line.number != first.saturating_add(count) {
                return None;
            }
            count = count.saturating_add(1);
        }
    }
    Some(count)
}
