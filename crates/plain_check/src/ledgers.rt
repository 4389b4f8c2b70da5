// Whether journals have a kept history.
ghost use Rattle.std.specs.Prelude.{◌≡◌, ◌↔◌, ◌+◌, ◌++◌, ◌<◌, ◌≤◌, ℕ, List as Items, [], length, Some, IsTrue, IfOk, IfSome, OnOk};
ghost use Rattle.cbdc_model.specs.Records.{Row as ModelRow, journal};
ghost use Rattle.cbdc_model.specs.History.{minted, first_rows, history_of};
ghost use Rattle.cbdc_model.specs.World.{IsHistory, KeptJournals};
ghost use Rattle.plain_check.specs.Journals.{journals_in};
ghost use Rattle.plain_check.specs.Histories.{AreOnNodes, IsWholeHistory};
ghost use Rattle.plain_check.specs.Merging.{put_row, put_records, behind_first, later_below};
ghost use Rattle.plain_check.specs.Minting.{compact_mint};

use crate::history::journal_at_number;
use crate::kept::{add_row, add_rows, is_kept, minted_of, on_first};
use crate::{Row, copy_of_record, goes_above, is_ordered, journal_at};
use cbdc_types::{CompactTx, FullTx, List, NodeId, Output, Record, Shape};
use same_records::is_journal;
use std::alloc::{AllocError, Global};

// The number of a row's node.
fn number_of(row: &Row) -> usize
    ensures { result ≡ row.now.node }
{
    row.node.0 as usize
}

// Whether all rows are of the nodes below n: no other node has a journal then.
fn are_below(rows: &[Row], n: usize) -> bool
    ensures { IsTrue result ↔ ((k : ℕ) → n ≤ k → journal k rows.now ≡ []) }
{
    match rows.split_first() {
        None => true,
        Some((row, past)) => number_of(row) < n && are_below(past, n),
    }
}

// Whether a node has this journal in the rows.
fn is_journal_of(
    alloc: Global,
    rows: &[Row],
    node: usize,
    given: &[Record],
) -> Result<bool, AllocError>
    ensures { IfOk result (λ yes. IsTrue yes ↔ (journal node rows.now ≡ given.now)) }
{
    let own = journal_at_number(alloc, node, rows)?;
    Ok(is_journal(own.as_slice(), given))
}

// Whether the nodes below n have these journals in the rows.
fn are_journals_below(
    alloc: Global,
    rows: &[Row],
    journals: &[List<Record>],
    n: usize,
) -> Result<bool, AllocError>
    requires { n ≤ length journals.now }
    ensures { IfOk result (λ yes. IsTrue yes
        ↔ ((k : ℕ) → k < n → journal k rows.now ≡ journals_in journals.now k)) }
{
    if n == 0 {
        return Ok(true);
    }
    if !is_journal_of(alloc, rows, n - 1, journals[n - 1].as_slice())? {
        return Ok(false);
    }
    are_journals_below(alloc, rows, journals, n - 1)
}

// Whether these are the journals of all nodes in the rows.
fn are_journals(alloc: Global, rows: &[Row], journals: &[List<Record>]) -> Result<bool, AllocError>
    ensures { IfOk result (λ yes. IsTrue yes
        ↔ ((n : ℕ) → journal n rows.now ≡ journals_in journals.now n)) }
{
    if !are_below(rows, journals.len()) {
        return Ok(false);
    }
    are_journals_below(alloc, rows, journals, journals.len())
}

/// Whether rows on top of a ledger's first ones are the history of these journals: all their records by stamp and node.
/// The mint is given as a compact transaction.
pub fn is_history(
    alloc: Global,
    shape: &Shape,
    mint: &CompactTx,
    journals: &[List<Record>],
    later: &[Row],
) -> Result<bool, AllocError>
    ensures { IfOk result (λ yes. IsTrue yes
        ↔ IsHistory shape.now (compact_mint mint.now) (journals_in journals.now) later.now) }
{
    if !is_ordered(later) {
        return Ok(false);
    }
    let rows = on_first(alloc, shape, mint, later)?;
    are_journals(alloc, rows.as_slice(), journals)
}

// Puts rows with one more in its place behind those so far.
fn add_with(row: &Row, rows: &[Row], out: &mut Vec<Row>) -> Result<(), AllocError>
    ensures { OnOk result (out.new.items ≡ out.old.items ++ put_row row.now rows.now) }
{
    match rows.split_first() {
        None => add_row(row, out),
        Some((head, later)) => {
            if goes_above(row, head) {
                add_row(row, out)?;
                add_rows(rows, out)
            } else {
                add_row(head, out)?;
                add_with(row, later, out)
            }
        }
    }
}

// Rows with one more in its place.
fn with_row(alloc: Global, row: &Row, rows: &[Row]) -> Result<List<Row>, AllocError>
    ensures { IfOk result (λ l. l ≡ put_row row.now rows.now) }
{
    let mut out = Vec::new(alloc);
    add_with(row, rows, &mut out)?;
    Ok(List::from_vec(out))
}

// Rows with a node's record among them.
fn with_record(
    alloc: Global,
    node: NodeId,
    r: &Record,
    rows: &[Row],
) -> Result<List<Row>, AllocError>
    ensures { IfOk result (λ l. l ≡ put_row (record { node = node; what = r.now }) rows.now) }
{
    let row = Row {
        node,
        what: copy_of_record(r)?,
    };
    with_row(alloc, &row, rows)
}

// Rows with a node's records among them.
fn with_records(
    alloc: Global,
    node: NodeId,
    past: &[Record],
    rows: List<Row>,
) -> Result<List<Row>, AllocError>
    ensures { IfOk result (λ l. l ≡ put_records node past.now rows) }
{
    let Some((r, rest)) = past.split_first() else {
        return Ok(rows);
    };
    let below = with_records(alloc, node, rest, rows)?;
    with_record(alloc, node, r, below.as_slice())
}

// A journal without its oldest record.
#[tactic(auto, using(crate::proofs::Belows::front_of))]
fn behind_first<'a>(past: &'a [Record]) -> &'a [Record]
    ensures { result.now ≡ behind_first past.now }
{
    match past.split_last() {
        Some((_, newer)) => newer,
        None => past,
    }
}

// The records behind the oldest ones of the nodes below n, in the order of a history.
#[tactic(auto, using(crate::proofs::Belows::below_step))]
fn later_below(alloc: Global, journals: &[List<Record>], n: u32) -> Result<List<Row>, AllocError>
    ensures { IfOk result (λ l. l ≡ later_below (journals_in journals.now) n) }
{
    if n == 0 {
        return Ok(List::new(alloc));
    }
    let node = n - 1;
    let below = later_below(alloc, journals, node)?;
    let own = behind_first(journal_at(journals, node));
    with_records(alloc, NodeId(node), own, below)
}

// The rows on top of a ledger's first ones that are the history of these journals, where they have one on the nodes of this shape.
fn later_of(
    alloc: Global,
    shape: &Shape,
    mint: &CompactTx,
    journals: &[List<Record>],
) -> Result<Option<List<Row>>, AllocError>
    ensures is { IfOk result (λ o.
        IfSome o (λ later. IsHistory shape.now (compact_mint mint.now) (journals_in journals.now) later)) }
    ensures found { IfOk result (λ o. (later : Items ModelRow) → IsHistory shape.now (compact_mint mint.now)
        (journals_in journals.now) later → AreOnNodes shape.now (journals_in journals.now) → o ≡ Some later) }
{
    let later = later_below(alloc, journals, shape.node_count())?;
    if !is_history(alloc, shape, mint, journals, later.as_slice())? {
        return Ok(None);
    }
    Ok(Some(later))
}

/// The history of these journals, the newest row first: all their records by stamp and node. None where they have none on the nodes of
/// this shape with the first records of this mint.
#[tactic(auto, using(crate::proofs::Histories::none_whole, crate::proofs::Histories::is_whole, crate::proofs::Histories::found_whole))]
pub fn history_of(
    alloc: Global,
    shape: &Shape,
    mint: &[Output],
    journals: &[List<Record>],
) -> Result<Option<List<Row>>, AllocError>
    ensures is { IfOk result
        (λ o. IfSome o (λ rows. IsWholeHistory shape.now mint.now (journals_in journals.now) rows)) }
    ensures found { IfOk result (λ o. (later : Items ModelRow)
        → IsHistory shape.now (minted mint.now) (journals_in journals.now) later
        → AreOnNodes shape.now (journals_in journals.now) → o ≡ Some (history_of shape.now mint.now later)) }
{
    let own = minted_of(alloc, mint)?;
    let Some(later) = later_of(alloc, shape, &own, journals)? else {
        return Ok(None);
    };
    let rows = on_first(alloc, shape, &own, later.as_slice())?;
    Ok(Some(rows))
}

// Whether rows on top of the first ones of a mint's ledger are the history of these journals.
fn is_history_of(
    alloc: Global,
    shape: &Shape,
    mint: &[Output],
    journals: &[List<Record>],
    later: &[Row],
) -> Result<bool, AllocError>
    ensures { IfOk result (λ yes. IsTrue yes
        ↔ IsHistory shape.now (minted mint.now) (journals_in journals.now) later.now) }
{
    let own = minted_of(alloc, mint)?;
    is_history(alloc, shape, &own, journals, later)
}

// Whether journals have a kept history, by the records behind their oldest ones in the order of a history.
#[tactic(auto, using(crate::proofs::Keeping::kept_history, crate::proofs::Keeping::kept_rows, crate::proofs::Keeping::kept_by_history))]
fn is_kept_by(
    alloc: Global,
    shape: &Shape,
    mint: &[Output],
    submissions: &[FullTx],
    journals: &[List<Record>],
    later: &[Row],
) -> Result<bool, AllocError>
    requires { later.now ≡ later_below (journals_in journals.now)
        (shape.now.coordinators + shape.now.shards) }
    ensures { IfOk result (λ yes. IsTrue yes
        ↔ KeptJournals shape.now mint.now submissions.now (journals_in journals.now)) }
{
    if !is_history_of(alloc, shape, mint, journals, later)? {
        return Ok(false);
    }
    is_kept(alloc, shape, mint, submissions, later)
}

/// Whether journals, of which the newest record is the first, have a kept history: their records by stamp and node, each
/// behind those of its journal and caused by those before it, and Prepares with forms of proper submissions alone.
pub fn is_kept_ledger(
    alloc: Global,
    shape: &Shape,
    mint: &[Output],
    submissions: &[FullTx],
    journals: &[List<Record>],
) -> Result<bool, AllocError>
    ensures { IfOk result (λ yes. IsTrue yes
        ↔ KeptJournals shape.now mint.now submissions.now (journals_in journals.now)) }
{
    let later = later_below(alloc, journals, shape.node_count())?;
    is_kept_by(alloc, shape, mint, submissions, journals, later.as_slice())
}
