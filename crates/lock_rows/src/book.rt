// A node in memory, for the rows: it writes down whatever it is asked to.
ghost use Rattle.std.specs.Prelude.{◌≡◌};
ghost use Rattle.lock_rows.specs.Books.{sight_of, BookWrites, BookTells};

use cbdc_types::{Header, LaneId};
use node_lock::{Asked, Node, Sighted};
use std::alloc::{AllocError, Global};

/// A journal of lines in memory.
#[derive(Drop)]
pub struct Book {
    header: Header,
    lines: Vec<Line>,
}

/// What is to be written down: a number, in a lane.
#[derive(Clone, Copy)]
pub struct Line {
    pub lane: LaneId,
    pub number: u64,
}

/// What a book can be asked for.
#[derive(Drop)]
pub enum Ask {
    /// How many records it has.
    Count,
    /// All its lines, the oldest first.
    Lines,
}

/// What it answers.
#[derive(Drop)]
pub enum Answer {
    Counted(usize),
    Listed(Result<Vec<Line>, AllocError>),
}

impl Book {
    /// An empty one.
    pub fn new(alloc: Global, header: Header) -> Book {
        Book {
            header,
            lines: Vec::new(alloc),
        }
    }

    /// Its lines, the oldest first.
    pub fn lines(&self) -> &[Line] {
        self.lines.as_slice()
    }
}

impl Sighted for Book {
    ghost sight = { sight_of };

    ghost goes = { λ a b. Unit {0} };

    fn count(&self) -> usize {
        self.lines.len()
    }

    fn is_stuck(&self) -> bool {
        false
    }

    ghost same = { λ n. tt };

    ghost behind = { λ a b c f g. tt };
}

impl Asked for Book {
    type Ask = Ask;

    type Answer = Answer;

    ghost tells = { BookTells };

    fn ask(&self, ask: &Ask) -> Answer {
        match ask {
            Ask::Count => Answer::Counted(self.lines.len()),
            Ask::Lines => Answer::Listed(self.lines.clone()),
        }
    }
}

impl<'c> Node<'c> for Book {
    type Call = Line;

    type Reply = bool;

    ghost lane = { λ l. l.lane };

    ghost allowed = { λ l s. Unit {0} };

    ghost gives = { λ s l t m done. BookWrites s l t done };

    fn step(&mut self, call: &mut Line) -> bool {
        match self.lines.push(*call) {
            Ok(()) => true,
            Err(_) => false,
        }
    }

    ghost others = { λ l s t more header seen other may. tt };
}
