// The words of a step. Where one is none that the step may have, that is kept, and 0 or nothing stands for it.
use crate::told::Told;
use crate::words::{hash, small};
use crate::{number, words_around};
use cbdc_types::{BatchId, Hash, LaneId, List};

impl Told {
    /// The word at a place.
    pub fn word_at<'a>(&mut self, words: &[&'a str], at: usize) -> &'a str {
        match words.get(at) {
            Some(word) => *word,
            None => {
                self.refuse("a word is missing");
                ""
            }
        }
    }

    /// The number that a word is.
    pub fn number_of(&mut self, word: &str) -> u64 {
        self.given(number(word)).unwrap_or(0)
    }

    /// The number at a place.
    pub fn number_at(&mut self, words: &[&str], at: usize) -> u64 {
        let own = self.word_at(words, at);
        self.number_of(own)
    }

    /// The number below 2^32 that a word is.
    pub fn small_of(&mut self, word: &str) -> u32 {
        self.given(small(word)).unwrap_or(0)
    }

    /// The number below 2^32 at a place.
    pub fn small_at(&mut self, words: &[&str], at: usize) -> u32 {
        let own = self.word_at(words, at);
        self.small_of(own)
    }

    /// The hash that a word is.
    pub fn hash_of(&mut self, word: &str) -> Hash {
        let came = hash(self.alloc, word);
        self.given(came).unwrap_or(Hash([0; 32]))
    }

    /// The hash at a place.
    pub fn hash_at(&mut self, words: &[&str], at: usize) -> Hash {
        let own = self.word_at(words, at);
        self.hash_of(own)
    }

    /// The hashes that words are.
    pub fn hashes_of(&mut self, words: &[&str]) -> List<Hash> {
        let mut all = Vec::new(self.alloc);
        for word in words {
            let x = self.hash_of(word);
            self.push(&mut all, x);
        }
        List::from_vec(all)
    }

    // A decision: `+` or `-`.
    fn decision(&mut self, word: &str) -> bool {
        match word {
            "+" => true,
            "-" => false,
            _ => {
                self.refuse("a decision is + or -");
                false
            }
        }
    }

    /// Decisions: `+` and `-`.
    pub fn decisions(&mut self, words: &[&str]) -> List<bool> {
        let mut all = Vec::new(self.alloc);
        for word in words {
            let own = self.decision(word);
            self.push(&mut all, own);
        }
        List::from_vec(all)
    }

    /// The words of a line.
    pub fn words_of<'a>(&mut self, line: &'a str) -> Vec<&'a str> {
        let alloc = self.alloc;
        self.made(line.split_whitespace().collect::<Vec<&str>>(alloc))
            .unwrap_or(Vec::new(alloc))
    }

    /// The lane at a place.
    pub fn lane_at(&mut self, words: &[&str], at: usize) -> LaneId {
        LaneId(self.small_at(words, at))
    }

    /// The batch `LANE NUMBER` at a place.
    pub fn batch_at(&mut self, words: &[&str], at: usize) -> BatchId {
        BatchId {
            lane: self.lane_at(words, at),
            number: self.number_at(words, at.saturating_add(1)),
        }
    }

    /// This word stands at a place.
    pub fn expect(&mut self, words: &[&str], at: usize, own: &str) {
        if self.word_at(words, at) != own {
            self.refuse("another word belongs here");
        }
    }

    /// There are no more words than that.
    pub fn at_most(&mut self, words: &[&str], many: usize) {
        if words.len() > many {
            self.refuse("a word too many");
        }
    }

    /// What stands before a word, and the one number behind it; where the word is missing another number.
    pub fn small_behind<'a, 'b>(
        &mut self,
        words: &'a [&'b str],
        own: &str,
        otherwise: u32,
    ) -> (&'a [&'b str], u32) {
        let (before, behind) = words_around(words, own);
        if before.len() == words.len() {
            return (before, otherwise);
        }
        self.at_most(behind, 1);
        (before, self.small_at(behind, 0))
    }
}
