// The words of a step, read one after another.
use cbdc_types::{BatchId, Hash, LaneId, List, NodeId, Outcome, Refusal};
use row_records::{Told, Wrong, outcome, refusal_of, rest};
use std::alloc::Global;

// The name of a file that a word spells.
fn name_of(word: &str, told: &mut Told) -> String {
    let mut name = String::new(told.alloc);
    if word != "\"\"" {
        for c in word.chars() {
            told.made(name.push(if c == '_' { ' ' } else { c }));
        }
    }
    name
}

/// Words, and how many of them are read. A word that is missing, or that is not what is read, is told at the end.
#[derive(Drop)]
pub struct Reader<'a> {
    words: &'a [&'a str],
    at: usize,
    told: Told,
}

impl<'a> Reader<'a> {
    pub fn new(alloc: Global, words: &'a [&'a str]) -> Reader<'a> {
        Reader {
            words,
            at: 0,
            told: Told::new(alloc),
        }
    }

    /// Whether a word is left.
    pub fn has_more(&self) -> bool {
        self.at < self.words.len()
    }

    /// Nothing where all words were read, and each was what it was read as.
    pub fn end(self) -> Result<(), Wrong> {
        let Reader { words, at, told } = self;
        let mut told = told;
        told.at_most(words, at);
        told.end()
    }

    pub fn word(&mut self) -> &'a str {
        let own = self.told.word_at(self.words, self.at);
        self.at = self.at.saturating_add(1);
        own
    }

    pub fn number(&mut self) -> u64 {
        let own = self.word();
        self.told.number_of(own)
    }

    /// A number below 256.
    pub fn byte(&mut self) -> u8 {
        match self.word().parse::<u8>() {
            Ok(n) => n,
            Err(_) => {
                self.refuse();
                0
            }
        }
    }

    /// A number below 2^32.
    pub fn small(&mut self) -> u32 {
        let own = self.word();
        self.told.small_of(own)
    }

    /// A number below 2^128.
    pub fn wide(&mut self) -> u128 {
        match self.word().parse::<u128>() {
            Ok(n) => n,
            Err(_) => {
                self.refuse();
                0
            }
        }
    }

    pub fn node(&mut self) -> NodeId {
        NodeId(self.small())
    }

    /// A batch, by its lane and number.
    pub fn batch(&mut self) -> BatchId {
        let lane = LaneId(self.small());
        let number = self.number();
        BatchId { lane, number }
    }

    pub fn hash(&mut self) -> Hash {
        let own = self.word();
        self.told.hash_of(own)
    }

    /// Hashes behind their number.
    pub fn hashes(&mut self) -> List<Hash> {
        let many = self.small() as usize;
        let first = self.at;
        self.at = first.saturating_add(many);
        match self.words.get(first..self.at) {
            Some(own) => self.told.hashes_of(own),
            None => {
                self.refuse();
                List::new(self.told.alloc)
            }
        }
    }

    pub fn outcome(&mut self) -> Outcome {
        let (own, behind) = outcome(self.words, self.at, &mut self.told);
        self.at = behind;
        own
    }

    /// The refusal that all other words are.
    pub fn refusal(&mut self) -> Refusal {
        let own = rest(self.words, self.at);
        self.at = self.words.len();
        refusal_of(own, &mut self.told)
    }

    /// The name of a file: `""` is an empty one, and `_` in it a blank.
    pub fn name(&mut self) -> String {
        let own = self.word();
        name_of(own, &mut self.told)
    }

    /// What was read may not stand there.
    pub fn refuse(&mut self) {
        self.told.refuse("a word is none that may stand there");
    }
}
