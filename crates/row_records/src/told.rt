// What a step is answered, and how it is compared.
use crate::refusals::word_of_refusal;
use crate::{Wrong, check_text, differ, put_word};
use cbdc_types::{BatchId, Hash, Outcome, Record, Refusal, Reply, Status};
use std::alloc::Global;
use std::fmt::{Display, Write};

/// An answer in words and lines. What goes wrong on the way to it, in the words of its step or because memory ran out, is kept, and the first of it
/// is told at the end: so a step need not stop where a word is none that it may have, and goes on with 0 or with nothing.
#[derive(Drop)]
pub struct Told {
    pub alloc: Global,
    text: String,
    wrong: Option<Wrong>,
}

impl Told {
    pub fn new(alloc: Global) -> Told {
        Told {
            alloc,
            text: String::new(alloc),
            wrong: None,
        }
    }

    /// Something went wrong.
    pub fn fail(&mut self, wrong: Wrong) {
        if self.wrong.is_none() {
            self.wrong = Some(wrong);
        }
    }

    /// The step is none that a row may have, or speaks of what is not there.
    pub fn refuse(&mut self, why: &'static str) {
        self.fail(Wrong::Line(why));
    }

    /// There was no memory.
    pub fn no_memory(&mut self) {
        self.fail(Wrong::Memory);
    }

    /// What came, or nothing where something went wrong.
    pub fn given<T: Drop>(&mut self, came: Result<T, Wrong>) -> Option<T> {
        match came {
            Ok(own) => Some(own),
            Err(wrong) => {
                self.fail(wrong);
                None
            }
        }
    }

    /// What was made, or nothing where there was no memory.
    pub fn made<T: Drop, E: Drop>(&mut self, came: Result<T, E>) -> Option<T> {
        match came {
            Ok(own) => Some(own),
            Err(_gone) => {
                self.no_memory();
                None
            }
        }
    }

    /// Puts a thing behind others.
    pub fn push<T: Drop>(&mut self, all: &mut Vec<T>, one: T) {
        let done = all.push(one);
        self.made(done);
    }

    /// Puts a thing behind others, where there is one.
    pub fn push_some<T: Drop>(&mut self, all: &mut Vec<T>, one: Option<T>) {
        if let Some(own) = one {
            self.push(all, own);
        }
    }

    /// A word, behind a blank where the line goes on.
    pub fn word(&mut self, word: &str) {
        let done = put_word(&mut self.text, word);
        self.made(done);
    }

    /// A text as it stands, with no blank before it.
    pub fn put(&mut self, text: &str) {
        let done = self.text.push_str(text);
        self.made(done);
    }

    /// Texts as they stand, one behind the other.
    pub fn put_all(&mut self, texts: &[&str]) {
        for text in texts {
            self.put(text);
        }
    }

    /// What a thing shows of itself, with no blank before it.
    pub fn put_shown<T: Display>(&mut self, own: &T) {
        if write!(self.text, "{own}").is_err() {
            self.no_memory();
        }
    }

    /// What a thing shows of itself, behind a blank where the line goes on.
    pub fn shown<T: Display>(&mut self, own: &T) {
        self.word("");
        self.put_shown(own);
    }

    pub fn number(&mut self, n: u64) {
        self.shown(&n);
    }

    pub fn numbers(&mut self, all: &[u64]) {
        for n in all {
            self.number(*n);
        }
    }

    /// A word and a number.
    pub fn named(&mut self, name: &str, n: u128) {
        self.word(name);
        self.shown(&n);
    }

    /// `done`, or why it was not.
    pub fn done<F: Display>(&mut self, came: &Result<(), F>) {
        match came {
            Ok(()) => self.word("done"),
            Err(fault) => self.shown(fault),
        }
    }

    /// `yes` or `no`
    pub fn yes(&mut self, is_so: bool) {
        self.word(if is_so { "yes" } else { "no" });
    }

    /// The end of a line.
    pub fn line(&mut self) {
        self.put("\n");
    }

    /// A stroke where the line goes on.
    pub fn stroke(&mut self) {
        if !self.text.is_empty() && !self.text.as_str().ends_with('\n') {
            self.word("/");
        }
    }

    /// A hash as rows spell it: two digits where it repeats a byte.
    pub fn hash(&mut self, x: &Hash) {
        let first = x.0[0];
        if x.0 == [first; 32] {
            self.digits(&[first]);
        } else {
            self.digits(x.0.as_slice());
        }
    }

    pub fn hashes(&mut self, all: &[Hash]) {
        for x in all {
            self.hash(x);
        }
    }

    /// The digits of bytes.
    pub fn digits(&mut self, bytes: &[u8]) {
        match hex::encode(self.alloc, bytes) {
            Ok(digits) => self.word(digits.as_str()),
            Err(_) => self.no_memory(),
        }
    }

    /// `LANE NUMBER`
    pub fn batch(&mut self, batch: &BatchId) {
        self.number(u64::from(batch.lane.0));
        self.number(batch.number);
    }

    /// `held`, `missing HASH`, `locked HASH LANE NUMBER`
    pub fn reply(&mut self, reply: &Reply) {
        match reply {
            Reply::Held => self.word("held"),
            Reply::Missing(x) => {
                self.word("missing");
                self.hash(x);
            }
            Reply::Locked(x, by) => {
                self.word("locked");
                self.hash(x);
                self.batch(by);
            }
        }
    }

    /// `held`, `missing SHARD HASH`, `locked SHARD HASH LANE NUMBER`
    pub fn outcome(&mut self, outcome: &Outcome) {
        match outcome {
            Outcome::Held => self.word("held"),
            Outcome::Missing(shard, x) => {
                self.named("missing", *shard as u128);
                self.hash(x);
            }
            Outcome::Locked(shard, x, by) => {
                self.named("locked", *shard as u128);
                self.hash(x);
                self.batch(by);
            }
        }
    }

    /// What is known of a hash: `unspent`, `absent`, `locked LANE NUMBER`.
    pub fn status(&mut self, status: &Status) {
        match status {
            Status::Unspent => self.word("unspent"),
            Status::Absent => self.word("absent"),
            Status::Locked(by) => {
                self.word("locked");
                self.batch(by);
            }
        }
    }

    /// The refusal of a transaction.
    pub fn refusal(&mut self, why: &Refusal) {
        self.word(word_of_refusal(why));
        match why {
            Refusal::RepeatedInput(i) | Refusal::ZeroInput(i) | Refusal::ZeroOutput(i) => {
                self.number(*i);
            }
            Refusal::BurnedInput(i) | Refusal::BadWitness(i) | Refusal::Unverified(i) => {
                self.number(*i);
            }
            Refusal::PermitCount { ins, outs } => self.numbers(&[*ins, *outs]),
            Refusal::PermitRaised { was, now } => self.numbers(&[*was, *now]),
            Refusal::Unbalanced { ins, outs } => self.numbers(&[*ins, *outs]),
            Refusal::NoInputs
            | Refusal::NoOutputs
            | Refusal::WitnessCount
            | Refusal::InputOverflow
            | Refusal::OutputOverflow => {}
        }
    }

    /// A record in a line, with all that it has.
    pub fn record(&mut self, own: &Record) {
        if write!(self.text, "{own:?}").is_err() {
            self.no_memory();
        }
        self.line();
    }

    /// Nothing where two texts are the same; else both are told.
    pub fn check_same(&mut self, wanted: &str, came: &str) {
        if wanted != came {
            let wrong = differ(self.alloc, wanted, came);
            self.fail(wrong);
        }
    }

    /// Nothing where a yes or a no is told rightly.
    pub fn check_is(&mut self, wanted: &str, is_so: bool) {
        self.check_same(wanted, if is_so { "yes" } else { "no" });
    }

    /// Nothing where it is so; else it is told that it is not.
    pub fn check_yes(&mut self, is_so: bool) {
        self.check_is("yes", is_so);
    }

    // Nothing where this answer is that text; else both are told.
    fn check_answer(&mut self, came: &str) {
        if self.text.as_str() != came {
            let wrong = differ(self.alloc, self.text.as_str(), came);
            self.fail(wrong);
        }
    }

    /// Nothing where another answer to the same is this one; else both are told.
    pub fn check_twice(&mut self, other: Told) {
        let came = self.take_text(other);
        self.check_answer(came.as_str());
    }

    // Other bytes came than those of these digits.
    fn tell_bytes(&mut self, wanted: &str, came: &[u8]) {
        let mut own = Told::new(self.alloc);
        own.digits(came);
        let wrong = differ(self.alloc, wanted, own.as_str());
        self.fail(wrong);
    }

    /// Nothing where bytes are the same; else both are told by their digits.
    pub fn check_bytes(&mut self, wanted: &[u8], came: &[u8]) {
        if wanted != came {
            let mut own = Told::new(self.alloc);
            own.digits(wanted);
            self.tell_bytes(own.as_str(), came);
        }
    }

    pub fn as_str(&self) -> &str {
        self.text.as_str()
    }

    /// The whole answer.
    pub fn text(self) -> Result<String, Wrong> {
        let Told { text, wrong, .. } = self;
        match wrong {
            Some(wrong) => Err(wrong),
            None => Ok(text),
        }
    }

    /// The whole text of another answer; where something went wrong on the way to it, that is kept, and the text is empty.
    pub fn take_text(&mut self, other: Told) -> String {
        match other.text() {
            Ok(own) => own,
            Err(wrong) => {
                self.fail(wrong);
                String::new(self.alloc)
            }
        }
    }

    /// Nothing where nothing went wrong, whatever the answer is.
    pub fn end(self) -> Result<(), Wrong> {
        let Told { wrong, .. } = self;
        match wrong {
            Some(wrong) => Err(wrong),
            None => Ok(()),
        }
    }

    /// What went wrong, or that the answer is not the text behind its step; where the step has taken that in, the answer is not compared.
    pub fn wrong(self, takes_text: bool, text: &str) -> Option<Wrong> {
        let came = if takes_text {
            self.end()
        } else {
            self.check(text)
        };
        came.err()
    }

    /// Nothing where the answer is the text that is wanted, whatever blanks are about both; else both are told.
    pub fn check(self, wanted: &str) -> Result<(), Wrong> {
        let Told { alloc, text, wrong } = self;
        match wrong {
            Some(wrong) => Err(wrong),
            None => check_text(alloc, wanted.trim(), text.as_str().trim()),
        }
    }
}
