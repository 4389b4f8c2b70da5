// What the gate that measures calls finds, by a clock that stands in.
use base_types::{LaneId, NodeId};
use host_devices::CallTimes;
use outside::{Gate, Point, When};
use std::io;
use std::sync::Wait;
use std::sync::atomic::{AtomicU64, Ordering};
use std::time::{Clock, Duration};

// A clock that goes on by a step at each reading.
#[derive(Drop)]
struct Ticks<'a> {
    step: &'a AtomicU64,
    time: AtomicU64,
}

impl<'a> Clock for Ticks<'a> {
    fn monotonic(&self) -> io::Result<Duration> {
        let step = self.step.load(Ordering::SeqCst);
        let before = self.time.fetch_add(step, Ordering::SeqCst);
        Ok(Duration::from_nanos(before.wrapping_add(step)))
    }

    fn since_1970(&self) -> io::Result<Duration> {
        self.monotonic()
    }
}

// A point of a lane's call at node 7.
fn point_of(lane: u32, when: When) -> Point {
    Point {
        lane: LaneId(lane),
        node: NodeId(7),
        kind: 2,
        when,
    }
}

// A lane's call passes the gate, which reads its clock twice.
fn call<W: Wait, G: Gate>(rt: &W, gate: &G, lane: u32) {
    for when in [When::Before, When::Inside, When::After] {
        gate.pass(rt, &point_of(lane, when));
    }
}

// Whether calls of so long are slow from the fourth in a row on.
fn are_slow_at_the_fourth<W: Wait, G: Gate>(rt: &W, gate: &G) -> bool {
    for _ in 0..3 {
        call(rt, gate, 0);
    }
    let was_slow = gate.is_slow();
    call(rt, gate, 1);
    !was_slow && gate.is_slow()
}

// Whether a call of so long ends that, and one of another lane in the middle of it does not.
fn are_quick_behind_one<W: Wait, G: Gate>(rt: &W, gate: &G) -> bool {
    gate.pass(rt, &point_of(0, When::Inside));
    call(rt, gate, 1);
    let was_slow = gate.is_slow();
    gate.pass(rt, &point_of(0, When::After));
    was_slow && !gate.is_slow()
}

/// Whether calls of 200,000 nanoseconds are slow, and one of 199,999 is not.
pub fn are_slow<W: Wait>(rt: &W) -> bool {
    let step = AtomicU64::new(200_000);
    let time = AtomicU64::new(0);
    let gate = CallTimes::new(Ticks { step: &step, time });
    let slow = are_slow_at_the_fourth(rt, &gate);
    step.store(199_999, Ordering::SeqCst);
    slow && are_quick_behind_one(rt, &gate)
}
