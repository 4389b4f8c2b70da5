// Files as bytes: mints, clients and verdicts.
use crate::kinds::tell_bad;
use crate::state::State;
use byte_fields::put_number;
use cbdc_types::FullTx;
use client_files::{BadFile, FetchFault, FileFault, fetch, read_clients, read_mint};
use mem_devices::MemInbox;
use row_records::{Told, copies, place_of};
use sentinel::{AllGood, BadLine, Verdict, VerdictFault, VerdictFile, Verifier};
use tx_codec::write_tx;

// Whether a word says that the file goes on.
fn goes_on(words: &[&str]) -> bool {
    place_of(words, "more").is_some()
}

// What is told of a file that is not read.
fn tell_fault(told: &mut Told, fault: &FileFault) {
    match fault {
        FileFault::Bad(BadFile { at, kind }) => tell_bad(told, *at, *kind),
        FileFault::Memory => told.word("memory"),
    }
}

/// `mint-file NAME [more]`, and `N coins` or `at N KIND`.
pub fn mint_file(state: &State, words: &[&str], told: &mut Told) {
    let bytes = state.bytes_at(words, 0, told);
    match read_mint(told.alloc, bytes, goes_on(words)) {
        Ok(mint) => {
            told.number(mint.len() as u64);
            told.word("coins");
        }
        Err(fault) => tell_fault(told, &fault),
    }
}

// Transactions behind their number are written as these bytes.
fn check_written(txs: &[FullTx], wanted: &[u8], told: &mut Told) {
    let alloc = told.alloc;
    let mut came = Vec::new(alloc);
    told.made(put_number(&mut came, txs.len() as u64));
    for tx in txs {
        told.made(write_tx(alloc, tx, &mut came));
    }
    told.check_bytes(wanted, &came);
}

/// Tells how many transactions were read of bytes, which are written again as they stood there.
pub fn tell_txs(txs: &[FullTx], bytes: &[u8], told: &mut Told) {
    check_written(txs, bytes, told);
    told.number(txs.len() as u64);
    told.word("transactions");
}

/// `client-file NAME before N [more]`, and `N transactions` or `at N KIND`. What is read is written again as it stood there.
pub fn client_file(state: &State, words: &[&str], told: &mut Told) {
    let bytes = state.bytes_at(words, 0, told);
    let before = told.number_at(words, 2);
    match read_clients(told.alloc, bytes, goes_on(words), before) {
        Ok(txs) => tell_txs(txs.as_slice(), bytes, told),
        Err(fault) => tell_fault(told, &fault),
    }
}

/// `verdict-file NAME [more]`, and `read`, `large` or `at LINE KIND`.
pub fn verdict_file(state: &State, words: &[&str], told: &mut Told) {
    let bytes = state.bytes_at(words, 0, told);
    match VerdictFile::read(told.alloc, bytes, goes_on(words)) {
        Ok(_) => told.word("read"),
        Err(VerdictFault::Bad(BadLine { line, kind })) => tell_bad(told, line, kind),
        Err(VerdictFault::Large) => told.word("large"),
        Err(VerdictFault::Memory) => told.word("memory"),
    }
}

/// The verdicts of a file.
pub fn verdicts_in(state: &State, name: &str, told: &mut Told) -> Option<VerdictFile> {
    let bytes = state.bytes(name, told);
    match VerdictFile::read(told.alloc, bytes, false) {
        Ok(file) => Some(file),
        Err(_) => {
            told.refuse("the file of verdicts is not read");
            None
        }
    }
}

fn verdict_word(verdict: Verdict) -> &'static str {
    match verdict {
        Verdict::Good => "good",
        Verdict::Bad => "bad",
        Verdict::Absent => "absent",
    }
}

/// `verdict NAME ID INDEX`, and the verdict of the file; `all-good` has a good one on each.
pub fn verdict(state: &State, words: &[&str], told: &mut Told) {
    let name = told.word_at(words, 0);
    let id = told.hash_at(words, 1);
    let index = told.number_at(words, 2);
    if name == "all-good" {
        told.word(verdict_word(AllGood.verdict(&id, index)));
    } else if let Some(file) = verdicts_in(state, name, told) {
        told.word(verdict_word(file.verdict(&id, index)));
    }
}

// Tells how many bytes were read, which are those that are wanted, and whether there are more.
fn tell_bytes(wanted: &[u8], read: &[u8], more: bool, told: &mut Told) {
    told.check_bytes(wanted, read);
    told.number(read.len() as u64);
    told.word(if more { "bytes more" } else { "bytes" });
}

// Tells what is fetched of a file.
fn tell_fetched(state: &State, inbox: &mut MemInbox, name: &str, told: &mut Told) {
    match fetch(told.alloc, inbox, name) {
        Ok((read, more)) => tell_bytes(state.bytes(name, told), read.as_slice(), more, told),
        Err(FetchFault::ReadFault) => told.word("no"),
        Err(FetchFault::Memory) => told.word("memory"),
    }
}

/// `fetch NAME`, a file among all named bytes: `N bytes`, which are those of the name, `N bytes more` or `no`.
pub fn fetched(state: &State, words: &[&str], told: &mut Told) {
    let name = told.word_at(words, 0);
    if let Some(files) = told.made(copies(told.alloc, &state.bytes)) {
        let mut inbox = MemInbox::new(files);
        tell_fetched(state, &mut inbox, name, told);
    }
}
