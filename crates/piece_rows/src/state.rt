// What a row has made so far: bytes, and what records speak of.
use row_records::{Known, Names, Told, Wrong};
use std::alloc::Global;

/// What a row has made so far.
#[derive(Drop)]
pub struct State {
    pub wrong: Option<Wrong>,
    pub known: Known,
    pub bytes: Names<Vec<u8>>,
    marked: usize,
}

impl State {
    pub fn empty(alloc: Global) -> State {
        State {
            wrong: None,
            known: Known::empty(alloc),
            bytes: Names::new(alloc),
            marked: 0,
        }
    }

    /// What was made so far stands for every row.
    pub fn keep(&mut self) {
        self.known.mark();
        self.marked = self.bytes.len();
    }

    /// Keeps what stood before the first row alone.
    pub fn forget(&mut self) {
        self.known.forget();
        self.bytes.forget(self.marked);
    }

    /// Bytes by their name; none where there are no such bytes.
    pub fn bytes(&self, name: &str, told: &mut Told) -> &[u8] {
        match self.bytes.get(name) {
            Some(bytes) => bytes.as_slice(),
            None => {
                told.refuse("no such bytes");
                &[]
            }
        }
    }

    /// The bytes that the word at a place names.
    pub fn bytes_at(&self, words: &[&str], at: usize, told: &mut Told) -> &[u8] {
        self.bytes(told.word_at(words, at), told)
    }
}
