// Gates of the rows.
use outside::{Gate, Point, When};
use std::sync::Wait;
use std::sync::atomic::{AtomicBool, AtomicU64, Ordering};
use std::thread;

// So many yields a gate waits at most: then it lets go, and the row does not hold.
const TURNS: u32 = 10_000_000;

/// Holds whoever comes to one point until another has come to the awaited one, who stays there for some yields more. It tells whether both came.
#[derive(Drop)]
pub struct MeetGate {
    held: Point,
    awaited: Point,
    more: u32,
    passed: AtomicBool,
    met: AtomicBool,
}

impl MeetGate {
    pub fn new(held: Point, awaited: Point, more: u32) -> MeetGate {
        MeetGate {
            held,
            awaited,
            more,
            passed: AtomicBool::new(false),
            met: AtomicBool::new(false),
        }
    }

    fn hold(&self) {
        for _ in 0..TURNS {
            if self.passed.load(Ordering::SeqCst) {
                self.met.store(true, Ordering::SeqCst);
                break;
            }
            thread::yield_now();
        }
    }
}

impl Gate for MeetGate {
    fn pass<W: Wait>(&self, _rt: &W, point: &Point) {
        if *point == self.awaited {
            self.passed.store(true, Ordering::SeqCst);
            for _ in 0..self.more {
                thread::yield_now();
            }
        }
        if *point == self.held {
            self.hold();
        }
    }
}

// Yields until a flag is set; false where that took too long.
fn is_soon(flag: &AtomicBool) -> bool {
    for _ in 0..TURNS {
        if flag.load(Ordering::SeqCst) {
            return true;
        }
        thread::yield_now();
    }
    false
}

/// Holds one lane inside the node until another, which waits before it for that, goes on, and for some yields more. It tells whether the
/// other one did so, and was not inside meanwhile.
#[derive(Drop)]
pub struct AloneGate {
    inside: Point,
    before: Point,
    more: u32,
    stands: AtomicBool,
    goes: AtomicBool,
    enters: AtomicBool,
    alone: AtomicBool,
}

impl AloneGate {
    pub fn new(inside: Point, before: Point, more: u32) -> AloneGate {
        AloneGate {
            inside,
            before,
            more,
            stands: AtomicBool::new(false),
            goes: AtomicBool::new(false),
            enters: AtomicBool::new(false),
            alone: AtomicBool::new(false),
        }
    }

    // The one lane is inside.
    fn hold(&self) {
        self.stands.store(true, Ordering::SeqCst);
        if is_soon(&self.goes) {
            for _ in 0..self.more {
                thread::yield_now();
            }
            let enters = self.enters.load(Ordering::SeqCst);
            self.alone.store(!enters, Ordering::SeqCst);
        }
    }

    // Whether the other lane comes inside.
    fn is_entry(&self, point: &Point) -> bool {
        let when = When::Inside;
        *point
            == (Point {
                when,
                ..self.before
            })
    }
}

impl Gate for AloneGate {
    fn pass<W: Wait>(&self, _rt: &W, point: &Point) {
        if *point == self.inside {
            self.hold();
        }
        if *point == self.before {
            let stands = is_soon(&self.stands);
            self.goes.store(stands, Ordering::SeqCst);
        }
        if self.is_entry(point) {
            self.enters.store(true, Ordering::SeqCst);
        }
    }
}

/// Keeps the points of one lane that were passed, as digits in their order: 1 before, 2 inside, 3 after; 9 for a point that is not the expected one.
#[derive(Drop)]
pub struct KeepGate {
    expected: Point,
    passed: AtomicU64,
}

impl KeepGate {
    pub fn new(expected: Point) -> KeepGate {
        KeepGate {
            expected,
            passed: AtomicU64::new(0),
        }
    }

    fn digit(&self, point: &Point) -> u64 {
        let when = point.when;
        if *point
            != (Point {
                when,
                ..self.expected
            })
        {
            return 9;
        }
        match when {
            When::Before => 1,
            When::Inside => 2,
            When::After => 3,
        }
    }
}

impl Gate for KeepGate {
    fn pass<W: Wait>(&self, _rt: &W, point: &Point) {
        let was = self.passed.load(Ordering::SeqCst);
        let now = was.wrapping_mul(10).wrapping_add(self.digit(point));
        self.passed.store(now, Ordering::SeqCst);
    }
}

/// The gate of a row.
#[derive(Drop)]
pub enum RowGate {
    Open,
    Meet(MeetGate),
    Alone(AloneGate),
    Keep(KeepGate),
}

impl RowGate {
    /// Whether it holds none, or let go because the awaited point was passed, with the other lane out of the node where it is to be.
    pub fn has_met(&self) -> bool {
        match self {
            RowGate::Meet(gate) => gate.met.load(Ordering::SeqCst),
            RowGate::Alone(gate) => gate.alone.load(Ordering::SeqCst),
            RowGate::Open | RowGate::Keep(_) => true,
        }
    }

    /// The digits of the points that it kept.
    pub fn passed(&self) -> u64 {
        match self {
            RowGate::Keep(gate) => gate.passed.load(Ordering::SeqCst),
            RowGate::Open | RowGate::Meet(_) | RowGate::Alone(_) => 0,
        }
    }
}

impl Gate for RowGate {
    fn pass<W: Wait>(&self, rt: &W, point: &Point) {
        match self {
            RowGate::Open => {}
            RowGate::Meet(gate) => gate.pass(rt, point),
            RowGate::Alone(gate) => gate.pass(rt, point),
            RowGate::Keep(gate) => gate.pass(rt, point),
        }
    }
}
