// Client files that come in pieces.
ghost use Rattle.std.specs.Prelude.{None, ℕ, List, ◌≤◌, ◌≡◌};

use crate::files::tell_txs;
use crate::kinds::tell_bad;
use crate::state::State;
use client_files::{BadFile, StreamFault, stream_clients};
use outside::{Failed, Inbox};
use row_records::{Told, place_of};

// The most that a read may ask for.
const MOST: usize = 65_536;

/// One file, of which a read brings at most so many bytes; reads from a place on fail, and so does one that asks for more than it may. It counts them.
#[derive(Drop)]
struct ShortInbox {
    bytes: Vec<u8>,
    piece: usize,
    fails: u64,
    reads: u64,
    faults: u64,
}

impl Inbox for ShortInbox {
    ghost file = { λ m name. None };

    ghost count = { λ m name. m.faults };

    fn read(&mut self, _name: &str, at: u64, buf: &mut [u8]) -> Result<usize, Failed> {
        self.reads = self.reads.saturating_add(1);
        if self.fails <= at || buf.len() > MOST {
            self.faults = self.faults.saturating_add(1);
            return Err(Failed);
        }
        let rest = self.bytes.get(at as usize..).unwrap_or(&[]);
        let n = rest.len().min(buf.len()).min(self.piece);
        buf[..n].copy_from_slice(&rest[..n]);
        Ok(n)
    }
}

/// `streams NAME before N pieces N [fails AT] [reads]`: a client file that comes in pieces of at most so many bytes; a read from that place on fails.
/// `N transactions`, which are written again as they stood there, `at N KIND`, or `no`; and `reads N`, how many reads were made.
pub fn streamed(state: &State, words: &[&str], told: &mut Told) {
    let bytes = state.bytes_at(words, 0, told);
    let before = told.number_at(words, 2);
    let mut inbox = inbox_of(bytes, words, told);
    stream(&mut inbox, bytes, before, told);
    if place_of(words, "reads").is_some() {
        told.word("reads");
        told.number(inbox.reads);
    }
}

// The file of these bytes, by the words of its step.
fn inbox_of(bytes: &[u8], words: &[&str], told: &mut Told) -> ShortInbox {
    let alloc = told.alloc;
    ShortInbox {
        bytes: told
            .made(Vec::from_slice(alloc, bytes))
            .unwrap_or(Vec::new(alloc)),
        piece: told.small_at(words, 4) as usize,
        fails: if place_of(words, "fails").is_some() {
            told.number_at(words, 6)
        } else {
            u64::MAX
        },
        reads: 0,
        faults: 0,
    }
}

// Tells what comes of a file behind so many transactions.
fn stream(inbox: &mut ShortInbox, bytes: &[u8], before: u64, told: &mut Told) {
    match stream_clients(told.alloc, inbox, "c", before) {
        Ok(txs) => tell_txs(txs.as_slice(), bytes, told),
        Err(StreamFault::Bad(BadFile { at, kind })) => tell_bad(told, at, kind),
        Err(StreamFault::ReadFault) => told.word("no"),
        Err(StreamFault::Memory) => told.word("memory"),
    }
}
