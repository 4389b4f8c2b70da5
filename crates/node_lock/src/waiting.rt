// How a seat waits for its turn, and how it is woken.
use crate::lock::Guarded;
use crate::node::Sighted;
use std::sync::Wait;
use std::thread;
use std::time::Duration;

// A seat that is at most so many turns from its own is woken at each turn; one that is farther naps, and is not. Many are near, since one that
// overslept its turn would keep all behind it waiting.
const NEAR: u64 = 64;

// So often a near seat looks again at once, before it sleeps.
const YIELDS: u32 = 100;

// The first sleep, and the shortest nap, in microseconds. Each next sleep is twice as long, up to the longest.
const SLEEP: u64 = 50;

const DOUBLINGS: u32 = 7;

/// What a seat knows of its waiting: how often it has looked while it was near, the turn at its last nap, and how long that was to be,
/// in microseconds.
#[derive(Clone, Copy)]
pub(crate) struct Waited {
    tries: u32,
    turn: u64,
    nap: u64,
}

impl Waited {
    pub(crate) fn none() -> Waited {
        Waited {
            tries: 0,
            turn: 0,
            nap: 0,
        }
    }

    // Half of what the turns that are left would take at the pace of the last nap: at a steady pace the seat is awake before it is near, and few
    // naps are needed.
    fn next_nap(&self, turn: u64, left: u64) -> u64 {
        let passed = turn.saturating_sub(self.turn).max(1);
        let half = self.nap.saturating_mul(left) / 2 / passed;
        half.max(SLEEP).min(SLEEP << DOUBLINGS)
    }
}

// How long the next sleep is, at most.
fn next_sleep(tries: u32) -> Duration {
    let doublings = tries.saturating_sub(YIELDS).min(DOUBLINGS);
    Duration::from_micros(SLEEP << doublings)
}

// The half of a word that is looked at before a sleep.
fn low(word: u64) -> u32 {
    (word % (1 << 32)) as u32
}

impl<N: Sighted> Guarded<N> {
    // Lets other threads go on, for a seat that is so many turns from its own.
    pub(crate) fn pause<R: Wait>(&self, rt: &R, turn: u64, left: u64, waited: &mut Waited) {
        if left > NEAR {
            self.nap(rt, turn, left, waited);
        } else {
            self.stand(rt, turn, waited);
        }
    }

    // Far from its turn: sleeps for some time, on a word at which nobody is woken.
    fn nap<R: Wait>(&self, rt: &R, turn: u64, left: u64, waited: &mut Waited) {
        let nap = waited.next_nap(turn, left);
        waited.nap = nap;
        waited.turn = turn;
        let records = low(self.table.shared.peek(2));
        self.table
            .shared
            .park_timeout(rt, 2, records, Duration::from_micros(nap));
    }

    // Near its turn: at first for a moment, later until the turn passes on from this one, or for some time.
    fn stand<R: Wait>(&self, rt: &R, turn: u64, waited: &mut Waited) {
        if waited.tries < YIELDS {
            thread::yield_now();
        } else {
            self.table
                .shared
                .park_timeout(rt, 1, low(turn), next_sleep(waited.tries));
        }
        waited.tries = waited.tries.saturating_add(1);
    }

    // Wakes those that sleep until their turn comes, if a ticket is out.
    pub(crate) fn wake(&self, turn: u64) {
        if self.table.shared.peek(0) != turn {
            self.table.shared.wake_all(1);
        }
    }
}
