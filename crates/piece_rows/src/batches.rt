// Ranges, parts, batches, workloads and refusals.
use crate::files::verdicts_in;
use crate::hashes::digest;
use crate::state::State;
use batcher::Batcher;
use cbdc_types::{CompactTx, FullTx, Part, Refusal, Shape};
use row_records::{Told, txs};
use sentinel::{AllGood, check, tx_id};
use shard_ranges::{shard_of, split};
use workload::{Workload, generate};

/// `shard HASH SHARDS`, and the shard of the hash.
pub fn shard(words: &[&str], told: &mut Told) {
    let x = told.hash_at(words, 0);
    match Shape::new(told.small_at(words, 1), 1, 1, 1) {
        Ok(shape) => told.number(shard_of(&x, &shape) as u64),
        Err(_) => told.refuse("no shape"),
    }
}

// The entries of a part, `SHARD PLACE ID HASH.. -> HASH..` in a line each.
fn tell_part(told: &mut Told, shard: u32, part: &Part) {
    for entry in part.as_slice() {
        told.number(shard as u64);
        told.number(entry.place as u64);
        told.hash(&entry.id);
        told.hashes(entry.inputs.as_slice());
        told.word("->");
        told.hashes(entry.outputs.as_slice());
        told.line();
    }
}

/// `split TX..`, and the entries of the parts, `SHARD PLACE ID HASH.. -> HASH..` in a line each.
pub fn split_told(state: &State, words: &[&str], told: &mut Told) {
    let alloc = told.alloc;
    let Some(shape) = told.given(state.known.shape()) else {
        return;
    };
    let all = txs(&state.known, words, told);
    if all.len() > 1024 {
        told.refuse("a batch has no more than 1,024");
        return;
    }
    if let Some(parts) = told.made(split(alloc, all.as_slice(), &shape)) {
        for (shard, part) in parts.as_slice() {
            tell_part(told, *shard, part);
        }
    }
}

// The transactions of a batch, `ID HASH.. -> HASH..` each.
fn tell_batch(told: &mut Told, batch: &[CompactTx]) {
    told.word("taken");
    for tx in batch {
        told.hash(&tx.id);
        told.hashes(tx.inputs.as_slice());
        told.word("->");
        told.hashes(tx.outputs.as_slice());
    }
}

// Pushes a transaction where there is room.
fn push(batcher: &mut Batcher, form: CompactTx, told: &mut Told) {
    if batcher.is_full() {
        told.refuse("the batch is full");
    } else {
        told.made(batcher.push(form));
    }
}

// Takes a batch, and tells its transactions, or `none`.
fn take(batcher: &mut Batcher, told: &mut Told) {
    match batcher.take() {
        Some(batch) => tell_batch(told, batch.as_slice()),
        None => told.word("none"),
    }
}

// Pushes the transaction of a name.
fn push_named(state: &State, batcher: &mut Batcher, name: &str, told: &mut Told) {
    match state.known.form(name) {
        Ok(form) => {
            if let Some(own) = told.made(form.clone()) {
                push(batcher, own, told);
            }
        }
        Err(wrong) => told.fail(wrong),
    }
}

/// `batcher LIMIT STEP..`, each a transaction that is pushed, or `take`; and what it says behind each: `full` or `room`, the
/// transactions that are taken, `ID HASH.. -> HASH..` each, or `none`.
pub fn batches(state: &State, words: &[&str], told: &mut Told) {
    let limit = told.small_at(words, 0) as usize;
    let mut batcher = Batcher::new(told.alloc, limit);
    for step in words.iter().skip(1) {
        if *step == "take" {
            take(&mut batcher, told);
        } else {
            push_named(state, &mut batcher, step, told);
            told.word(if batcher.is_full() { "full" } else { "room" });
        }
    }
}

// How many transactions there are, and the id of the last.
fn tell_txs(told: &mut Told, name: &str, all: &[FullTx]) {
    told.word(name);
    told.number(all.len() as u64);
    if let [.., tx] = all {
        told.hash(&tx_id(tx));
    }
    told.line();
}

fn tell_workload(told: &mut Told, made: &Workload) {
    told.word("mint");
    told.number(made.mint.len() as u64);
    if let [.., coin] = made.mint.as_slice() {
        told.number(coin.value);
    }
    told.line();
    tell_txs(told, "splits", made.splits.as_slice());
    tell_txs(told, "joins", made.joins.as_slice());
    told.word("verdicts");
    told.hash(&digest(made.verdicts.as_slice()));
}

/// `workload SEED COUNT`, and four lines: the mint's outputs and the last value, the splits and the last id, the joins and the
/// last id, the digest of the verdicts.
pub fn workload(words: &[&str], told: &mut Told) {
    let (seed, many) = (told.number_at(words, 0), told.number_at(words, 1));
    if many > 10_000 {
        told.refuse("no more than 10,000 transactions");
        return;
    }
    let made = generate(told.alloc, seed, many);
    if let Some(own) = told.made(made) {
        tell_workload(told, &own);
    }
}

fn tell_sound(told: &mut Told, answer: &Result<(), Refusal>) {
    match answer {
        Ok(()) => told.word("sound"),
        Err(why) => told.refusal(why),
    }
}

// Tells `sound` or the refusal of a transaction, by the verdicts of a file; `all-good` has a good one on each witness.
fn tell_check(state: &State, tx: &FullTx, name: &str, told: &mut Told) {
    let id = tx_id(tx);
    if name == "all-good" {
        tell_sound(told, &check(tx, &id, &AllGood));
    } else if let Some(file) = verdicts_in(state, name, told) {
        tell_sound(told, &check(tx, &id, &file));
    }
}

/// `sentinel TX NAME`, and `sound` or the refusal, by the verdicts of a file; `all-good` has a good one on each witness.
pub fn refused(state: &State, words: &[&str], told: &mut Told) {
    let name = told.word_at(words, 1);
    match state.known.full(told.word_at(words, 0)) {
        Ok(tx) => tell_check(state, tx, name, told),
        Err(wrong) => told.fail(wrong),
    }
}
