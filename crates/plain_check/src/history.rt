// Histories: the records of all nodes in one order.
ghost use Rattle.std.specs.Prelude.{◌≡◌, ◌↔◌, ◌++◌, IsTrue, IfOk, OnOk};
ghost use Rattle.cbdc_model.specs.Records.{journal};
ghost use Rattle.cbdc_model.specs.Outcomes.{won_txs};
ghost use Rattle.cbdc_model.specs.History.{goes_above, IsOrdered, newly_won, committed};

use crate::copying::{copy_of_compact, copy_of_record, put};
use cbdc_types::{CompactTx, List, NodeId, Outcome, Record};
use same_records::{is_won, stamp_of, txs_of};
use std::alloc::{AllocError, Global};
use std::marker::Model;

/// A record with its node. Contracts see the definitions' row.
#[derive(Drop)]
pub struct Row {
    pub node: NodeId,
    pub what: Record,
}

impl Model for Row {
    ghost use Rattle.cbdc_model.specs.Records.{Row as ModelRow};

    ghost Value = { ModelRow };

    ghost view = { λ r. record { node = r.node; what = r.what } };
}

/// Whether a row goes above another: by stamp, then by node.
pub fn goes_above(row: &Row, next: &Row) -> bool
    ensures { result ≡ goes_above row.now next.now }
{
    let own = stamp_of(&row.what).0;
    let other = stamp_of(&next.what).0;
    other < own || (own == other && next.node.0 < row.node.0)
}

/// Whether rows stand by stamp and node, the newest first.
pub fn is_ordered(rows: &[Row]) -> bool
    ensures { IsTrue result ↔ IsOrdered rows.now }
{
    let Some((row, later)) = rows.split_first() else {
        return true;
    };
    match later.split_first() {
        None => true,
        Some((next, _)) => goes_above(row, next) && is_ordered(later),
    }
}

// Puts a node's records behind those so far.
fn add_journal(node: usize, rows: &[Row], out: &mut Vec<Record>) -> Result<(), AllocError>
    ensures { OnOk result (out.new.items ≡ out.old.items ++ journal node rows.now) }
{
    match rows.split_first() {
        None => Ok(()),
        Some((row, past)) => {
            if row.node.0 as usize == node {
                put(out, copy_of_record(&row.what)?)?;
            }
            add_journal(node, past, out)
        }
    }
}

/// The journal, newest first, of the node with a number, of a history.
pub fn journal_at_number(
    alloc: Global,
    node: usize,
    rows: &[Row],
) -> Result<List<Record>, AllocError>
    ensures { IfOk result (λ l. l ≡ journal node rows.now) }
{
    let mut out = Vec::new(alloc);
    add_journal(node, rows, &mut out)?;
    Ok(List::from_vec(out))
}

/// A node's journal, newest first, of a history.
pub fn journal_of(alloc: Global, node: NodeId, rows: &[Row]) -> Result<List<Record>, AllocError>
    ensures { IfOk result (λ l. l ≡ journal node rows.now) }
{
    journal_at_number(alloc, node.0 as usize, rows)
}

// Puts those of the transactions that are committed behind those so far.
fn add_won(
    txs: &[CompactTx],
    outcomes: &[Outcome],
    out: &mut Vec<CompactTx>,
) -> Result<(), AllocError>
    ensures { OnOk result (out.new.items ≡ out.old.items ++ won_txs txs.now outcomes.now) }
{
    match (txs.split_first(), outcomes.split_first()) {
        (Some((t, others)), Some((o, rest))) => {
            if is_won(o) {
                put(out, copy_of_compact(t)?)?;
            }
            add_won(others, rest, out)
        }
        _ => Ok(()),
    }
}

// Puts the committed transactions of a history behind those so far.
fn add_committed(alloc: Global, rows: &[Row], out: &mut Vec<CompactTx>) -> Result<(), AllocError>
    ensures { OnOk result (out.new.items ≡ out.old.items ++ committed rows.now) }
{
    match rows.split_first() {
        None => Ok(()),
        Some((row, past)) => {
            add_committed(alloc, past, out)?;
            add_won_by(alloc, row, past, out)
        }
    }
}

// Puts the transactions that a row commits, on top of older ones, behind those so far.
fn add_won_by(
    alloc: Global,
    row: &Row,
    past: &[Row],
    out: &mut Vec<CompactTx>,
) -> Result<(), AllocError>
    ensures { OnOk result (out.new.items
        ≡ out.old.items ++ newly_won row.now.what (journal row.now.node past.now)) }
{
    match &row.what {
        Record::Commit {
            batch,
            outcomes,
            ..
        } => {
            let own = journal_of(alloc, row.node, past)?;
            add_won(txs_of(own.as_slice(), batch), outcomes.as_slice(), out)
        }
        _ => Ok(()),
    }
}

/// The committed compact transactions of a history, in the order of their Commits, the oldest first.
pub fn committed_compact(alloc: Global, rows: &[Row]) -> Result<List<CompactTx>, AllocError>
    ensures { IfOk result (λ l. l ≡ committed rows.now) }
{
    let mut out = Vec::new(alloc);
    add_committed(alloc, rows, &mut out)?;
    Ok(List::from_vec(out))
}
