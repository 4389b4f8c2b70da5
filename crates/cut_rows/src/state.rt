// What a row has made so far: transactions, and the records of a ledger.
use cbdc_types::Record;
use row_records::{Known, Told, Wrong, rows_in};
use std::alloc::Global;

/// Hashes and transactions by name, all that was handed in by their names, and the records of a ledger, each with its node, the oldest first.
#[derive(Drop)]
pub struct State {
    pub wrong: Option<Wrong>,
    pub known: Known,
    pub handed: Vec<String>,
    pub rows: Vec<(u32, Record)>,
}

impl State {
    pub fn empty(alloc: Global) -> State {
        State {
            wrong: None,
            known: Known::empty(alloc),
            handed: Vec::new(alloc),
            rows: Vec::new(alloc),
        }
    }

    /// `ledger`: the records of a ledger.
    pub fn ledger(&mut self, text: &str, told: &mut Told) {
        self.rows = rows_in(&self.known, text, told);
    }

    /// `handed NAME..`: all that was handed in.
    pub fn hand_in(&mut self, words: &[&str], told: &mut Told) {
        for word in words {
            if let Some(name) = told.made(String::from_str(told.alloc, word)) {
                told.push(&mut self.handed, name);
            }
        }
    }
}
