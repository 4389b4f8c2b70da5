// Whether a history is kept: each row follows its node's journal and is caused by the rows before it.
ghost use Rattle.std.specs.Prelude.{◌≡◌, ◌↔◌, ◌+◌, ◌++◌, ◌∷◌, [], ◌≤◌, ℕ, IsTrue, IfOk, OnOk};
ghost use Rattle.cbdc_model.specs.Records.{journal};
ghost use Rattle.cbdc_model.specs.After.{After};
ghost use Rattle.cbdc_model.specs.Causes.{IsCaused};
ghost use Rattle.cbdc_model.specs.History.{starts, geneses, first_rows, header_of, IsSteady, TxsPass, IsKept};
ghost use Rattle.cbdc_model.specs.Clean.{IsProperCompact};
ghost use Rattle.cbdc_model.specs.Coins.{compact, genesis_tx};
ghost use Rattle.plain_check.specs.Minting.{compact_mint};

use crate::copying::put;
use crate::event_causes::header_at;
use crate::proper::passes;
use crate::{Row, copy_of_record, is_after, is_caused_at, journal_of};
use cbdc_types::{CompactTx, FullTx, Hash, List, NodeId, Output, Record, Shape};
use same_records::hashes_on;
use sentinel::{compact, genesis_tx};
use std::alloc::{AllocError, Global};

// A copy of a row.
fn copy_of_row(row: &Row) -> Result<Row, AllocError>
    ensures { IfOk result (λ t. t ≡ row.now) }
{
    Ok(Row {
        node: row.node,
        what: copy_of_record(&row.what)?,
    })
}

/// Puts a copy of a row behind those so far.
pub fn add_row(row: &Row, out: &mut Vec<Row>) -> Result<(), AllocError>
    ensures { OnOk result (out.new.items ≡ out.old.items ++ row.now ∷ []) }
{
    put(out, copy_of_row(row)?)
}

/// Puts copies of rows behind those so far.
pub fn add_rows(rows: &[Row], out: &mut Vec<Row>) -> Result<(), AllocError>
    ensures { OnOk result (out.new.items ≡ out.old.items ++ rows.now) }
{
    match rows.split_first() {
        None => Ok(()),
        Some((row, rest)) => {
            add_row(row, out)?;
            add_rows(rest, out)
        }
    }
}

/// Rows with older ones below them.
pub fn rows_on(alloc: Global, later: &[Row], first: &[Row]) -> Result<List<Row>, AllocError>
    ensures { IfOk result (λ l. l ≡ later.now ++ first.now) }
{
    let mut out = Vec::new(alloc);
    add_rows(later, &mut out)?;
    add_rows(first, &mut out)?;
    Ok(List::from_vec(out))
}

/// The compact transaction of a mint.
pub fn minted_of(alloc: Global, mint: &[Output]) -> Result<CompactTx, AllocError>
    ensures { IfOk result (λ t. t ≡ compact (genesis_tx mint.now)) }
{
    let whole = genesis_tx(alloc, mint)?;
    compact(alloc, &whole)
}

// Puts the first rows of the coordinators below n behind those so far.
fn add_starts(shape: &Shape, mint: &CompactTx, n: u32, out: &mut Vec<Row>) -> Result<(), AllocError>
    ensures { OnOk result (out.new.items ≡ out.old.items ++ starts shape.now (compact_mint mint.now) n) }
{
    if n == 0 {
        return Ok(());
    }
    let node = NodeId(n - 1);
    let header = header_at(shape, &mint.id, node);
    put(
        out,
        Row {
            node,
            what: Record::Start { header },
        },
    )?;
    add_starts(shape, mint, n - 1, out)
}

// Puts the first rows of the shards below n behind those so far.
fn add_geneses(
    alloc: Global,
    shape: &Shape,
    mint: &CompactTx,
    n: u32,
    out: &mut Vec<Row>,
) -> Result<(), AllocError>
    requires { n ≤ shape.now.shards }
    ensures { OnOk result (out.new.items ≡ out.old.items ++ geneses shape.now (compact_mint mint.now) n) }
{
    if n == 0 {
        return Ok(());
    }
    let node = NodeId(shape.coordinators() + (n - 1));
    let header = header_at(shape, &mint.id, node);
    let hashes = hashes_on(alloc, shape, n - 1, mint.outputs.as_slice())?;
    put(
        out,
        Row {
            node,
            what: Record::Genesis { header, hashes },
        },
    )?;
    add_geneses(alloc, shape, mint, n - 1, out)
}

/// The first rows of a ledger, by its mint as a compact transaction, the newest first.
pub fn first_rows(alloc: Global, shape: &Shape, mint: &CompactTx) -> Result<List<Row>, AllocError>
    ensures { IfOk result (λ l. l ≡ first_rows shape.now (compact_mint mint.now)) }
{
    let mut out = Vec::new(alloc);
    add_geneses(alloc, shape, mint, shape.shards(), &mut out)?;
    add_starts(shape, mint, shape.coordinators(), &mut out)?;
    Ok(List::from_vec(out))
}

/// Rows on top of a ledger's first ones, by its mint as a compact transaction.
pub fn on_first(
    alloc: Global,
    shape: &Shape,
    mint: &CompactTx,
    later: &[Row],
) -> Result<List<Row>, AllocError>
    ensures { IfOk result (λ l. l ≡ later.now ++ first_rows shape.now (compact_mint mint.now)) }
{
    let first = first_rows(alloc, shape, mint)?;
    rows_on(alloc, later, first.as_slice())
}

// Whether a row may come on top of a history: it follows its node's journal, and its transactions pass.
fn may_come(
    alloc: Global,
    shape: &Shape,
    genesis: &Hash,
    submissions: &[FullTx],
    past: &[Row],
    row: &Row,
) -> Result<bool, AllocError>
    ensures { IfOk result (λ yes. IsTrue yes
        ↔ (After (header_of shape.now genesis.now row.now.node) (journal row.now.node past.now) row.now.what
        × TxsPass (IsProperCompact submissions.now) row.now.what)) }
{
    let header = header_at(shape, genesis, row.node);
    let own = journal_of(alloc, row.node, past)?;
    if !is_after(alloc, &header, own.as_slice(), &row.what)? {
        return Ok(false);
    }
    passes(alloc, submissions, &row.what)
}

// Whether a row stands on top of a history: it may come, and is caused.
fn may_stand(
    alloc: Global,
    shape: &Shape,
    genesis: &Hash,
    submissions: &[FullTx],
    past: &[Row],
    row: &Row,
) -> Result<bool, AllocError>
    requires { (n : ℕ) → shape.now.coordinators + shape.now.shards ≤ n → journal n past.now ≡ [] }
    ensures { IfOk result (λ yes. IsTrue yes
        ↔ ((After (header_of shape.now genesis.now row.now.node) (journal row.now.node past.now) row.now.what
        × TxsPass (IsProperCompact submissions.now) row.now.what)
        × IsCaused shape.now (λ n. journal n past.now) row.now.node row.now.what)) }
{
    if !may_come(alloc, shape, genesis, submissions, past, row)? {
        return Ok(false);
    }
    is_caused_at(alloc, shape, past, row)
}

// Whether rows on top of the first ones are steady.
fn is_steady(
    alloc: Global,
    shape: &Shape,
    mint: &CompactTx,
    submissions: &[FullTx],
    first: &[Row],
    later: &[Row],
) -> Result<bool, AllocError>
    requires { first.now ≡ first_rows shape.now (compact_mint mint.now) }
    ensures { IfOk result (λ yes. IsTrue yes
        ↔ IsSteady shape.now (compact_mint mint.now) (IsProperCompact submissions.now) later.now) }
{
    let Some((row, rest)) = later.split_first() else {
        return Ok(true);
    };
    if !is_steady(alloc, shape, mint, submissions, first, rest)? {
        return Ok(false);
    }
    let rows = rows_on(alloc, rest, first)?;
    may_stand(alloc, shape, &mint.id, submissions, rows.as_slice(), row)
}

/// Whether the rows on top of a ledger's first ones are kept: each follows its node's journal and is caused by the rows
/// before it, and Prepares have compact forms of proper submissions alone.
pub fn is_kept(
    alloc: Global,
    shape: &Shape,
    mint: &[Output],
    submissions: &[FullTx],
    later: &[Row],
) -> Result<bool, AllocError>
    ensures { IfOk result (λ yes. IsTrue yes ↔ IsKept shape.now mint.now submissions.now later.now) }
{
    let own = minted_of(alloc, mint)?;
    let first = first_rows(alloc, shape, &own)?;
    is_steady(alloc, shape, &own, submissions, first.as_slice(), later)
}
