// What the plain programs of the definitions say of ledgers.
use crate::state::State;
use crate::verbs::Verb;
use cbdc_types::{CompactTx, FullTx, Hash, Input, List, Record, Shape};
use plain_check::{
    Row, are_alike, are_waves, committed_compact, committed_of, count_of_book, fold_of,
    genesis_book, has, history_of, is_clean, is_kept_ledger, outcome_of, stamp_of, unspent_of,
    value_of,
};
use row_records::{Told, rest};
use sentinel::{AllGood, input_hash, tx_id};
use std::alloc::AllocError;

// Whether what came is the yes or the no that the word at a place tells.
fn check_at(words: &[&str], at: usize, came: Result<bool, AllocError>, told: &mut Told) {
    let wanted = told.word_at(words, at);
    let is_so = told.made(came).unwrap_or(false);
    told.check_is(wanted, is_so);
}

/// `clean yes`: whether the mint and all submissions are clean.
pub fn clean(state: &State, words: &[&str], told: &mut Told) {
    let alloc = told.alloc;
    let submitted = state.submitted(told);
    let coins = state.coins(told);
    let came = is_clean(alloc, coins, submitted.as_slice());
    check_at(words, 0, came, told);
}

// `kept LEDGER yes`
fn kept(state: &State, shape: &Shape, journals: &[List<Record>], words: &[&str], told: &mut Told) {
    let submitted = state.submitted(told);
    let coins = state.coins(told);
    let came = is_kept_ledger(told.alloc, shape, coins, submitted.as_slice(), journals);
    check_at(words, 1, came, told);
}

// `alike LEDGER yes`: whether every batch is finished alike.
fn alike(shape: &Shape, journals: &[List<Record>], words: &[&str], told: &mut Told) {
    let wanted = told.word_at(words, 1);
    told.check_is(wanted, are_alike(journals, shape));
}

// Whether a run between these journals took its files in waves, where every witness is good.
fn check_waves(
    state: &State,
    shape: &Shape,
    before: &[List<Record>],
    behind: &[List<Record>],
    words: &[&str],
    told: &mut Told,
) {
    let files = state.run_files(told);
    let came = are_waves(
        told.alloc,
        shape,
        &AllGood,
        files.as_slice(),
        before,
        behind,
    );
    check_at(words, 2, came, told);
}

// `waves ENTRY EXIT yes`: whether a run took its files in waves, where every witness is good.
fn waves(state: &State, shape: &Shape, before: &[List<Record>], words: &[&str], told: &mut Told) {
    let behind = state.journals(words, 1, told);
    check_waves(state, shape, before, behind.as_slice(), words, told);
}

// `outcome LEDGER LANE NUMBER PLACE`, and the outcome of that transaction by the Locks.
fn outcome(shape: &Shape, journals: &[List<Record>], words: &[&str], told: &mut Told) {
    let batch = told.batch_at(words, 1);
    let place = told.number_at(words, 3);
    told.outcome(&outcome_of(journals, shape, &batch, place));
}

// The history of a ledger, the newest row first.
fn rows_of(
    state: &State,
    shape: &Shape,
    journals: &[List<Record>],
    told: &mut Told,
) -> Option<List<Row>> {
    let coins = state.coins(told);
    told.made(history_of(told.alloc, shape, coins, journals))?
}

// Tells a line `NODE STAMP` for each row, the oldest first.
fn tell_rows(rows: &[Row], told: &mut Told) {
    for row in rows.iter().rev() {
        told.numbers(&[u64::from(row.node.0), stamp_of(&row.what).0]);
        told.line();
    }
}

// `history LEDGER`, and a line `NODE STAMP` for each row, the oldest first, or `none`.
fn history(state: &State, shape: &Shape, journals: &[List<Record>], told: &mut Told) {
    match rows_of(state, shape, journals, told) {
        None => told.word("none"),
        Some(rows) => tell_rows(rows.as_slice(), told),
    }
}

// Those of the transactions submitted that rows have committed, in the order of their Commits.
fn committed_in(state: &State, rows: &[Row], told: &mut Told) -> Option<List<FullTx>> {
    let submitted = state.submitted(told);
    told.made(committed_of(told.alloc, rows, submitted.as_slice()))?
}

// The transactions that a ledger has committed, in the order of their Commits.
fn committed(
    state: &State,
    shape: &Shape,
    journals: &[List<Record>],
    told: &mut Told,
) -> Option<List<FullTx>> {
    match rows_of(state, shape, journals, told) {
        None => None,
        Some(rows) => committed_in(state, rows.as_slice(), told),
    }
}

// Tells a line with the id of each transaction.
fn tell_ids(txs: &[FullTx], told: &mut Told) {
    for tx in txs {
        told.hash(&tx_id(tx));
        told.line();
    }
}

// `commits LEDGER`, and a line with the id of each transaction that is committed, in the order of the Commits; `none` where there is no
// history, or one was not submitted.
fn commits(state: &State, shape: &Shape, journals: &[List<Record>], told: &mut Told) {
    match committed(state, shape, journals, told) {
        None => told.word("none"),
        Some(txs) => tell_ids(txs.as_slice(), told),
    }
}

fn are_within(xs: &[Hash], ys: &[Hash]) -> bool {
    xs.iter().all(|x| has(ys, x))
}

// Whether the shards of a ledger together hold exactly these hashes.
fn are_held(shape: &Shape, journals: &[List<Record>], xs: &[Hash], told: &mut Told) -> bool {
    match told.made(unspent_of(told.alloc, journals, shape)) {
        Some(own) => {
            let ys = own.as_slice();
            xs.len() == ys.len() && are_within(xs, ys) && are_within(ys, xs)
        }
        None => false,
    }
}

fn hashes_of(coins: &[Input], told: &mut Told) -> Vec<Hash> {
    let mut all = Vec::new(told.alloc);
    for coin in coins {
        told.push(&mut all, input_hash(coin));
    }
    all
}

// Whether the shards of a ledger together hold exactly these coins, each once.
fn are_coins_held(
    shape: &Shape,
    journals: &[List<Record>],
    coins: &[Input],
    told: &mut Told,
) -> bool {
    let many = told.made(count_of_book(told.alloc, coins)).unwrap_or(0);
    let xs = hashes_of(coins, told);
    are_held(shape, journals, xs.as_slice(), told) && many == coins.len()
}

// Tells how many coins there are, of what value, what value was minted, and whether the shards hold them, each once.
fn tell_coins(
    shape: &Shape,
    journals: &[List<Record>],
    minted: u128,
    coins: &[Input],
    told: &mut Told,
) {
    let value = told.made(value_of(told.alloc, coins)).unwrap_or(0);
    told.named("coins", coins.len() as u128);
    told.named("value", value);
    told.named("minted", minted);
    let held = are_coins_held(shape, journals, coins, told);
    told.word(if held { "held" } else { "not held" });
}

// Tells what coins transactions leave of the mint.
fn tell_left(
    state: &State,
    shape: &Shape,
    journals: &[List<Record>],
    txs: &[FullTx],
    told: &mut Told,
) {
    let alloc = told.alloc;
    let coins = state.coins(told);
    let Some(book) = told.made(genesis_book(alloc, coins)) else {
        return;
    };
    let minted = told.made(value_of(alloc, book.as_slice())).unwrap_or(0);
    match told.made(fold_of(alloc, book, txs)) {
        Some(Some(coins)) => tell_coins(shape, journals, minted, coins.as_slice(), told),
        _ => told.word("unfunded"),
    }
}

// `comes LEDGER`, and `committed N coins N value V minted V held`, or `committed N unfunded` where an input is not there.
fn comes(state: &State, shape: &Shape, journals: &[List<Record>], told: &mut Told) {
    match committed(state, shape, journals, told) {
        Some(txs) => {
            told.named("committed", txs.len() as u128);
            tell_left(state, shape, journals, txs.as_slice(), told);
        }
        None => told.refuse("no history, or one was not submitted"),
    }
}

// Takes a transaction's inputs out of hashes, and puts its outputs behind; whether each input was there.
fn spend(all: &mut Vec<Hash>, tx: &CompactTx, told: &mut Told) -> bool {
    let mut are_there = true;
    for x in tx.inputs.as_slice() {
        are_there = are_there && has(all.as_slice(), x);
        all.retain(|y| y != x);
    }
    told.made(all.extend_from_slice(tx.outputs.as_slice()));
    are_there
}

// Takes what transactions spend out of hashes, and puts what they make behind; whether each input was there when it was spent.
fn spend_all(all: &mut Vec<Hash>, txs: &[CompactTx], told: &mut Told) -> bool {
    let mut are_there = true;
    for tx in txs {
        are_there = spend(all, tx, told) && are_there;
    }
    are_there
}

// Does what the ledger's transactions that are committed do to hashes; whether each input was there when it was spent.
fn spend_committed(all: &mut Vec<Hash>, rows: &[Row], told: &mut Told) -> bool {
    match told.made(committed_compact(told.alloc, rows)) {
        Some(txs) => spend_all(all, txs.as_slice(), told),
        None => false,
    }
}

// `holds LEDGER yes HASH..`: whether the shards hold just the hashes that what is committed leaves of these.
fn holds(state: &State, shape: &Shape, journals: &[List<Record>], words: &[&str], told: &mut Told) {
    let rows = state.rows(words, 0, told);
    let mut all = told.hashes_of(rest(words, 2)).into_vec();
    let is_so = spend_committed(&mut all, rows, told)
        && are_held(shape, journals, all.as_slice(), told);
    let wanted = told.word_at(words, 1);
    told.check_is(wanted, is_so);
}

// Does a step that looks at the journals of a ledger.
fn look_at(
    state: &State,
    verb: Verb,
    shape: &Shape,
    journals: &[List<Record>],
    words: &[&str],
    told: &mut Told,
) {
    match verb {
        Verb::Kept => kept(state, shape, journals, words, told),
        Verb::Alike => alike(shape, journals, words, told),
        Verb::Waves => waves(state, shape, journals, words, told),
        Verb::Outcome => outcome(shape, journals, words, told),
        Verb::History => history(state, shape, journals, told),
        Verb::Commits => commits(state, shape, journals, told),
        Verb::Comes => comes(state, shape, journals, told),
        Verb::Holds => holds(state, shape, journals, words, told),
        _ => told.refuse("no such step"),
    }
}

/// Does a step that looks at the journals of the ledger which the words begin with.
pub fn look_at_ledger(state: &State, verb: Verb, words: &[&str], told: &mut Told) {
    if let Some(shape) = told.given(state.known.shape()) {
        let journals = state.journals(words, 0, told);
        look_at(state, verb, &shape, journals.as_slice(), words, told);
    }
}
