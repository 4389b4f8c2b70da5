// Transactions as bytes, both ways.
ghost use Rattle.tx_codec.specs.Feeds.{IsGoing};

use crate::bytes::{behind_others, bytes_of};
use crate::kinds::tell_bad;
use crate::state::State;
use cbdc_types::FullTx;
use row_records::{Told, rest};
use std::alloc::Global;
use tx_codec::{BadTx, Fed, ReadFault, TxFeed, read_back, read_tx, write_tx};

// A transaction is written as these bytes behind others, which stay as they are.
fn check_written(tx: &FullTx, wanted: &[u8], told: &mut Told) {
    let all = behind_others(wanted, told);
    let mut came = behind_others(&[], told);
    told.made(write_tx(told.alloc, tx, &mut came));
    told.check_bytes(&all, &came);
}

// Whether a transaction is read back, and ends there, whatever stands behind it.
fn is_read_back(alloc: Global, tx: &FullTx, len: usize) -> bool {
    match read_back(alloc, tx, &[1, 2, 3]) {
        Ok((read, end)) => read == *tx && end == len,
        Err(_) => false,
    }
}

// A transaction is written as these bytes behind others, which stay as they are, and is read back.
fn check_both_ways(tx: &FullTx, wanted: &[u8], told: &mut Told) {
    check_written(tx, wanted, told);
    if !is_read_back(told.alloc, tx, wanted.len()) {
        told.refuse("the bytes are read as another transaction");
    }
}

/// `tx-bytes TX PIECE..`: these are the bytes of the transaction, and they are read as it, whatever stands behind them.
pub fn tx_bytes(state: &State, words: &[&str], told: &mut Told) {
    let wanted = bytes_of(state, rest(words, 1), told);
    match state.known.full(told.word_at(words, 0)) {
        Ok(tx) => check_both_ways(tx, &wanted, told),
        Err(wrong) => told.fail(wrong),
    }
}

// Tells where a transaction ends that was read of bytes; it is written again as it stood there, and read back.
fn tell_tx(tx: &FullTx, bytes: &[u8], at: usize, end: usize, told: &mut Told) {
    let own = bytes.get(at..end).unwrap_or(&[]);
    check_both_ways(tx, own, told);
    told.named("ends", end as u128);
}

// Tells what is read from a place on.
fn tell_read(bytes: &[u8], at: usize, told: &mut Told) {
    if bytes.len() < at {
        told.refuse("there are fewer bytes");
        return;
    }
    match read_tx(told.alloc, bytes, at) {
        Ok((tx, end)) => tell_tx(&tx, bytes, at, end, told),
        Err(ReadFault::Bad(BadTx { at, kind })) => tell_bad(told, at as u64, kind),
        Err(ReadFault::Memory) => told.word("memory"),
    }
}

/// `reads-tx AT PIECE..`: what is read from that place on, `ends N` or `at N KIND`. What is read is written again as it stood there,
/// and read back.
pub fn reads_tx(state: &State, words: &[&str], told: &mut Told) {
    let at = told.small_at(words, 0) as usize;
    let bytes = bytes_of(state, rest(words, 1), told);
    tell_read(&bytes, at, told);
}

// What a feed tells where no more bytes come, behind so many that it took.
fn tell_end(feed: &TxFeed, more: u64, told: &mut Told)
    requires { IsGoing feed.now.state }
{
    told.number(more);
    told.word("more");
    match feed.end() {
        Some(BadTx { at, kind }) => tell_bad(told, at as u64, kind),
        None => told.word("nothing"),
    }
}

// Pushes bytes one by one, behind so many.
fn push_each(feed: &mut TxFeed, bytes: &[u8], more: u64, told: &mut Told)
    requires { IsGoing feed.old.state }
{
    let [_, later @ ..] = bytes else {
        tell_end(feed, more, told);
        return;
    };
    match feed.push(&bytes[..1]) {
        Ok(Fed::More) => push_each(feed, later, more.saturating_add(1), told),
        Ok(Fed::Done(tx, taken)) => {
            told.number(more);
            told.word("more");
            told.named("done", taken as u128);
            told.check_yes(tx.inputs.len() > 0);
        }
        Err(ReadFault::Bad(BadTx { at, kind })) => {
            told.number(more);
            told.word("bad");
            tell_bad(told, at as u64, kind);
        }
        Err(ReadFault::Memory) => told.word("memory"),
    }
}

/// `feeds PIECE..`: the bytes come one by one. `N more`, how many did not make the transaction whole, and `done TAKEN`, how many of the
/// last piece are its; or `at N KIND`, what is wrong where no more come, `nothing` where none came; `N bad at N KIND` of a bad field.
pub fn feeds(state: &State, words: &[&str], told: &mut Told) {
    let bytes = bytes_of(state, words, told);
    let mut feed = TxFeed::new(told.alloc);
    push_each(&mut feed, &bytes, 0, told);
}
