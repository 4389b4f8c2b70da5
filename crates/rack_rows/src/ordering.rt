// Points in an order, where lanes run beside each other.
use crate::disks::kind_word;
use cbdc_types::NodeId;
use outside::{Point, When};
use row_records::Told;
use std::sync::atomic::{AtomicBool, AtomicUsize, Ordering};
use std::thread;

/// For how many turns a point waits at most for the one before it.
pub const TURNS: u32 = 10_000_000;

/// Points that are to be passed in this order: each is held until the one before it was passed, for at most so many turns. Once the turns
/// have run out it holds nothing.
#[derive(Drop)]
pub struct PointOrder {
    points: Vec<Point>,
    turns: u32,
    passed: AtomicUsize,
    late: AtomicBool,
}

impl PointOrder {
    /// None of the points is passed yet.
    pub fn new(points: Vec<Point>, turns: u32) -> PointOrder {
        PointOrder {
            points,
            turns,
            passed: AtomicUsize::new(0),
            late: AtomicBool::new(false),
        }
    }

    /// Whether it holds no point.
    pub fn is_empty(&self) -> bool {
        self.points.is_empty()
    }

    // The first place of a point that was not passed.
    fn place_of(&self, point: &Point) -> Option<usize> {
        let passed = self.passed.load(Ordering::SeqCst);
        let rest = self.points.get(passed..)?;
        let at = rest.iter().position(|own| own == point)?;
        Some(passed.saturating_add(at))
    }

    /// Holds a point until those before it were passed.
    pub fn pass(&self, point: &Point) {
        let Some(place) = self.place_of(point) else {
            return;
        };
        for _ in 0..self.turns {
            if self.late.load(Ordering::SeqCst) {
                return;
            }
            if self.passed.load(Ordering::SeqCst) == place {
                self.passed.store(place.saturating_add(1), Ordering::SeqCst);
                return;
            }
            thread::yield_now();
        }
        self.late.store(true, Ordering::SeqCst);
    }

    /// Whether all were passed, each in its place.
    pub fn is_kept(&self) -> bool {
        !self.late.load(Ordering::SeqCst) && self.passed.load(Ordering::SeqCst) == self.points.len()
    }
}

// The kind of a record by its word; 0 behind a message of a sentinel ahead of a lane, and behind a look of an auditor.
fn kind_of(word: &str, told: &mut Told) -> u8 {
    if word == "sent" || word == "look" {
        return 0;
    }
    for kind in 1..10 {
        if kind_word(kind) == word {
            return kind;
        }
    }
    told.refuse("no such kind");
    0
}

// Where a point lies about a lock, by its word.
fn when_of(word: &str, told: &mut Told) -> When {
    match word {
        "before" => When::Before,
        "inside" => When::Inside,
        "after" => When::After,
        _ => {
            told.refuse("before, inside or after");
            When::After
        }
    }
}

// A point by its words.
fn point_of(words: &[&str], told: &mut Told) -> Point {
    told.at_most(words, 4);
    Point {
        lane: told.lane_at(words, 0),
        node: NodeId(told.small_at(words, 1)),
        kind: kind_of(told.word_at(words, 2), told),
        when: when_of(told.word_at(words, 3), told),
    }
}

/// How the points of a run are held: for how many turns each, and whether the gate says that calls are slow.
#[derive(Clone, Copy)]
pub struct Holding {
    pub turns: u32,
    pub is_slow: bool,
}

impl Holding {
    /// Holds each for `TURNS`, and says that calls are slow.
    pub fn long() -> Holding {
        Holding {
            turns: TURNS,
            is_slow: true,
        }
    }
}

/// What words tell: `quick` where the gate says that calls are not slow, and then for how many turns a point waits, `TURNS` at most.
pub fn holding_of(words: &[&str], told: &mut Told) -> Holding {
    let (is_slow, turns) = match words {
        ["quick", turns @ ..] => (false, turns),
        turns => (true, turns),
    };
    let turns = match turns {
        [] => TURNS,
        turns => told.small_at(turns, 0).min(TURNS),
    };
    Holding { turns, is_slow }
}

/// The points of lines `LANE NODE KIND WHEN`.
pub fn points_of(text: &str, told: &mut Told) -> Vec<Point> {
    let mut points = Vec::new(told.alloc);
    for line in text.lines() {
        let words = told.words_of(line);
        let point = point_of(&words, told);
        told.push(&mut points, point);
    }
    points
}
