// The book: which output lies at which outpoint, as a list of coins.
ghost use Rattle.std.specs.Prelude.{◌≡◌, ◌+◌, ◌-◌, ◌*◌, ◌^◌, ◌<◌, ◌≤◌, ◌==◌, ◌&&◌, ◌++◌, ◌∷◌, [], length, map, filter, not, option_map, IfOk, OnOk, Some};
ghost use Rattle.std.specs.FinMap as book;
ghost use Rattle.std.specs.Ordering.{eq_by_cmp, nat_cmp};
ghost use Rattle.std.specs.Cmp.Lexicographic.{slice_cmp};
ghost use Rattle.std.specs.FinMap.Entries.{find};
ghost use Rattle.cbdc_model.specs.Book.{key, take_out, take_all, put_all, spend, fold_txs, value, genesis_book};
ghost use Rattle.cbdc_model.specs.Coins.{made_coins, tx_coins, genesis_tx};
ghost use Rattle.plain_check.specs.Coins.{coin_entry, book_of};

use crate::copying::{put, with_front};
use cbdc_types::{FullTx, Hash, Input, List, OutPoint, Output};
use same_records::{is_same_output, is_same_point};
use sentinel::{genesis_tx, tx_id};
use std::alloc::{AllocError, Global};

// The output of the first of these coins with the outpoint.
fn first_output(coins: &[Input], p: &OutPoint) -> Option<Output>
    ensures { result ≡ find (slice_cmp nat_cmp) (key p.now) (map coin_entry coins.now) }
{
    match coins.split_first() {
        None => None,
        Some((c, rest)) => {
            if is_same_point(p, &c.point) {
                Some(c.output)
            } else {
                first_output(rest, p)
            }
        }
    }
}

/// The output at an outpoint of the book that these coins are.
#[tactic(auto, using(crate::proofs::Keys::get_is))]
pub fn output_at(coins: &[Input], p: &OutPoint) -> Option<Output>
    ensures { result ≡ book.get (book_of coins.now) (key p.now) }
{
    first_output(coins, p)
}

// Puts the coins at other outpoints behind those so far.
fn add_others(coins: &[Input], p: &OutPoint, out: &mut Vec<Input>) -> Result<(), AllocError>
    ensures fewer { OnOk result (length out.new.items ≤ length out.old.items + length coins.now) }
    ensures others { OnOk result (out.new.items ≡ out.old.items
        ++ filter (λ c. not (eq_by_cmp (slice_cmp nat_cmp) (key p.now) (key c.point))) coins.now) }
{
    match coins.split_first() {
        None => Ok(()),
        Some((c, rest)) => {
            if !is_same_point(p, &c.point) {
                put(out, *c)?;
            }
            add_others(rest, p, out)
        }
    }
}

// The coins at other outpoints.
fn without(alloc: Global, coins: &[Input], p: &OutPoint) -> Result<List<Input>, AllocError>
    ensures fewer { IfOk result (λ l. length l ≤ length coins.now) }
    ensures others { IfOk result (λ l. book_of l ≡ book.remove (book_of coins.now) (key p.now)) }
{
    let mut out = Vec::new(alloc);
    add_others(coins, p, &mut out)?;
    Ok(List::from_vec(out))
}

/// The book without a coin, where it has the claimed output at the coin's outpoint.
pub fn take_out(
    alloc: Global,
    coins: &[Input],
    c: &Input,
) -> Result<Option<List<Input>>, AllocError>
    ensures { IfOk result (λ o. option_map book_of o ≡ take_out (book_of coins.now) c.now) }
{
    let Some(o) = output_at(coins, &c.point) else {
        return Ok(None);
    };
    if !is_same_output(&o, &c.output) {
        return Ok(None);
    }
    Ok(Some(without(alloc, coins, &c.point)?))
}

/// The book without coins that are taken out one after another, so none may stand there twice.
pub fn take_all(
    alloc: Global,
    coins: List<Input>,
    cs: &[Input],
) -> Result<Option<List<Input>>, AllocError>
    ensures { IfOk result (λ o. option_map book_of o ≡ take_all (Some (book_of coins)) cs.now) }
{
    let Some((c, rest)) = cs.split_first() else {
        return Ok(Some(coins));
    };
    match take_out(alloc, coins.as_slice(), c)? {
        None => Ok(None),
        Some(left) => take_all(alloc, left, rest),
    }
}

/// The book with coins put in one after another.
pub fn put_all(coins: List<Input>, cs: &[Input]) -> Result<List<Input>, AllocError>
    ensures { IfOk result (λ l. book_of l ≡ put_all (book_of coins) cs.now) }
{
    match cs.split_first() {
        None => Ok(coins),
        Some((c, rest)) => {
            let more = with_front(*c, coins)?;
            put_all(more, rest)
        }
    }
}

// Puts the coins that outputs make under an id, the first of which has this index, behind those so far.
fn add_coins(
    id: &Hash,
    index: u64,
    outputs: &[Output],
    out: &mut Vec<Input>,
) -> Result<(), AllocError>
    requires { index + length outputs.now < 2 ^ 64 }
    ensures { OnOk result (out.new.items ≡ out.old.items ++ made_coins id.now index outputs.now) }
{
    match outputs.split_first() {
        None => Ok(()),
        Some((o, rest)) => {
            let coin = Input {
                point: OutPoint { tx: *id, index },
                output: *o,
            };
            put(out, coin)?;
            add_coins(id, index + 1, rest, out)
        }
    }
}

/// Puts the coins that a transaction makes behind those so far.
pub fn add_made(t: &FullTx, out: &mut Vec<Input>) -> Result<(), AllocError>
    ensures { OnOk result (out.new.items ≡ out.old.items ++ tx_coins t.now) }
{
    add_coins(&tx_id(t), 0, t.outputs.as_slice(), out)
}

/// The coins that a transaction makes.
pub fn coins_of(alloc: Global, t: &FullTx) -> Result<List<Input>, AllocError>
    ensures { IfOk result (λ l. l ≡ tx_coins t.now) }
{
    let mut out = Vec::new(alloc);
    add_made(t, &mut out)?;
    Ok(List::from_vec(out))
}

/// The book behind a transaction: its inputs are taken out and its outputs put in. None where an input isn't there as
/// claimed or stands twice.
pub fn spend(
    alloc: Global,
    coins: List<Input>,
    t: &FullTx,
) -> Result<Option<List<Input>>, AllocError>
    ensures { IfOk result (λ o. option_map book_of o ≡ spend (book_of coins) t.now) }
{
    match take_all(alloc, coins, t.inputs.as_slice())? {
        None => Ok(None),
        Some(left) => {
            let made = coins_of(alloc, t)?;
            Ok(Some(put_all(left, made.as_slice())?))
        }
    }
}

/// The book behind transactions spent in turn. None where one can't be.
pub fn fold_of(
    alloc: Global,
    coins: List<Input>,
    txs: &[FullTx],
) -> Result<Option<List<Input>>, AllocError>
    ensures { IfOk result (λ o. option_map book_of o ≡ fold_txs (Some (book_of coins)) txs.now) }
{
    let Some((t, rest)) = txs.split_first() else {
        return Ok(Some(coins));
    };
    match spend(alloc, coins, t)? {
        None => Ok(None),
        Some(next) => fold_of(alloc, next, rest),
    }
}

/// The sum of the values of the book that these coins are.
#[tactic(auto, using(crate::proofs::Keys::value_first))]
pub fn value_of(alloc: Global, coins: &[Input]) -> Result<u128, AllocError>
    ensures value { IfOk result (λ v. v ≡ value (book_of coins.now)) }
    ensures bound { IfOk result (λ v. v ≤ length coins.now * (2 ^ 64 - 1)) }
{
    let Some((c, rest)) = coins.split_first() else {
        return Ok(0);
    };
    let others = without(alloc, rest, &c.point)?;
    let more = value_of(alloc, others.as_slice())?;
    Ok(u128::from(c.output.value) + more)
}

/// How many outputs the book has that these coins are: each outpoint counts once.
#[tactic(auto, using(crate::proofs::Keys::count_first))]
pub fn count_of_book(alloc: Global, coins: &[Input]) -> Result<usize, AllocError>
    ensures count { IfOk result (λ n. n ≡ book.len (book_of coins.now)) }
    ensures bound { IfOk result (λ n. n ≤ length coins.now) }
{
    let Some((c, rest)) = coins.split_first() else {
        return Ok(0);
    };
    let others = without(alloc, rest, &c.point)?;
    let more = count_of_book(alloc, others.as_slice())?;
    Ok(more + 1)
}

/// The coins that a mint makes.
pub fn minted_coins(alloc: Global, mint: &[Output]) -> Result<List<Input>, AllocError>
    ensures { IfOk result (λ l. l ≡ tx_coins (genesis_tx mint.now)) }
{
    let t = genesis_tx(alloc, mint)?;
    coins_of(alloc, &t)
}

/// The book that a mint is, as coins.
pub fn genesis_book(alloc: Global, mint: &[Output]) -> Result<List<Input>, AllocError>
    ensures { IfOk result (λ l. book_of l ≡ genesis_book mint.now) }
{
    let made = minted_coins(alloc, mint)?;
    put_all(List::new(alloc), made.as_slice())
}
