// How long calls at nodes take.
use outside::{Gate, Point, When};
use std::sync::Wait;
use std::sync::atomic::{AtomicU64, Ordering};
use std::time::Clock;

// From so many nanoseconds on a call is slow: a thread of its own costs less.
const SLOW_CALL: u64 = 200_000;

// So many slow calls in a row make calls slow, since one may also be slow where its thread had to wait for a processor.
const IN_A_ROW: u64 = 4;

/// A gate that holds up nothing and measures how long calls hold their nodes, one call at a time. A slow disk shows so, since a call ends when what
/// it wrote is on the disk.
#[derive(Drop)]
pub struct CallTimes<R: Clock + Drop> {
    clock: R,
    measured: AtomicU64,
    begun: AtomicU64,
    slow: AtomicU64,
}

// A number for the calls of a lane for records of one kind at a node, and never 0.
fn number_of(point: &Point) -> u64 {
    1 << 63 | u64::from(point.lane.0) << 40 | u64::from(point.node.0) << 8 | u64::from(point.kind)
}

impl<R: Clock + Drop> CallTimes<R> {
    /// No call was measured yet.
    pub fn new(clock: R) -> CallTimes<R> {
        CallTimes {
            clock,
            measured: AtomicU64::new(0),
            begun: AtomicU64::new(0),
            slow: AtomicU64::new(0),
        }
    }

    // Nanoseconds by the clock, or 0 where it can't be read.
    fn now(&self) -> u64 {
        match self.clock.monotonic() {
            Ok(time) => u64::try_from(time.as_nanos()).unwrap_or(0),
            Err(_) => 0,
        }
    }

    // Begins to measure this call, where none is being measured.
    fn begin(&self, point: &Point) {
        let free = self
            .measured
            .compare_exchange(0, number_of(point), Ordering::SeqCst, Ordering::SeqCst);
        if free.is_ok() {
            self.begun.store(self.now(), Ordering::SeqCst);
        }
    }

    // Ends it, where it is the one that is being measured.
    fn end(&self, point: &Point) {
        if self.measured.load(Ordering::SeqCst) != number_of(point) {
            return;
        }
        let took = self.now().saturating_sub(self.begun.load(Ordering::SeqCst));
        if took < SLOW_CALL {
            self.slow.store(0, Ordering::SeqCst);
        } else {
            self.slow.fetch_add(1, Ordering::SeqCst);
        }
        self.measured.store(0, Ordering::SeqCst);
    }
}

impl<R: Clock + Drop> Gate for CallTimes<R> {
    fn pass<W: Wait>(&self, _rt: &W, point: &Point) {
        match point.when {
            When::Before => {}
            When::Inside => self.begin(point),
            When::After => self.end(point),
        }
    }

    fn is_slow(&self) -> bool {
        self.slow.load(Ordering::SeqCst) >= IN_A_ROW
    }
}
