// What a lane prepared.
ghost use Rattle.std.specs.Prelude.{◌≡◌, ◌↔◌, ◌++◌, ◌<◌, IsTrue, IfOk, OnOk};
ghost use Rattle.cbdc_model.specs.Waves.{IsCut, prepared};
ghost use Rattle.plain_check.specs.Adding.{PreparesInPieces, AddsPieces};

use crate::copying::{copy_of_txs, put};
use cbdc_types::{CompactTx, LaneId, List, Record, Shape};
use same_records::are_compacts;
use std::alloc::{AllocError, Global};

// Puts what a lane prepared in a journal behind what there is.
fn add_prepared(
    alloc: Global,
    lane: LaneId,
    past: &[Record],
    out: &mut Vec<List<CompactTx>>,
) -> Result<(), AllocError>
    ensures { OnOk result (out.new.items ≡ out.old.items ++ prepared lane past.now) }
{
    match past.split_first() {
        None => Ok(()),
        Some((r, rest)) => {
            if let Record::Prepare { batch, txs, .. } = r {
                if batch.lane.0 == lane.0 {
                    put(out, copy_of_txs(alloc, txs.as_slice())?)?;
                }
            }
            add_prepared(alloc, lane, rest, out)
        }
    }
}

/// The transactions of a lane's Prepares in a journal, the newest first.
pub fn prepared_of(
    alloc: Global,
    lane: LaneId,
    past: &[Record],
) -> Result<List<List<CompactTx>>, AllocError>
    ensures { IfOk result (λ l. l ≡ prepared lane past.now) }
{
    let mut out = Vec::new(alloc);
    add_prepared(alloc, lane, past, &mut out)?;
    Ok(List::from_vec(out))
}

// Puts the pieces of n that transactions are cut into behind those so far.
#[tactic(auto, using(crate::proofs::Cutting::no_pieces, crate::proofs::Cutting::more_pieces))]
fn add_pieces(
    alloc: Global,
    n: usize,
    txs: &[CompactTx],
    out: &mut Vec<List<CompactTx>>,
) -> Result<(), AllocError>
    requires { 0 < n }
    ensures { OnOk result (AddsPieces n txs.now out.old.items out.new.items) }
{
    if txs.is_empty() {
        return Ok(());
    }
    let (piece, rest) = txs.split_at(n.min(txs.len()));
    put(out, copy_of_txs(alloc, piece)?)?;
    add_pieces(alloc, n, rest, out)
}

/// The pieces of n that transactions are cut into, in order, the last maybe shorter.
pub fn pieces_of(
    alloc: Global,
    n: usize,
    txs: &[CompactTx],
) -> Result<List<List<CompactTx>>, AllocError>
    requires { 0 < n }
    ensures { IfOk result (λ l. IsCut n txs.now l) }
{
    let mut out = Vec::new(alloc);
    add_pieces(alloc, n, txs, &mut out)?;
    Ok(List::from_vec(out))
}

// Whether two lists of lists of transactions are the same.
fn are_lists(xs: &[List<CompactTx>], ys: &[List<CompactTx>]) -> bool
    ensures { IsTrue result ↔ (xs.now ≡ ys.now) }
{
    match (xs.split_first(), ys.split_first()) {
        (None, None) => true,
        (Some((x, others)), Some((y, rest))) => {
            are_compacts(x.as_slice(), y.as_slice()) && are_lists(others, rest)
        }
        _ => false,
    }
}

/// Whether a lane's Prepares in a journal are those of an older one, and behind them these transactions in order, in pieces
/// of a batch's size.
pub fn is_prepared(
    alloc: Global,
    shape: &Shape,
    lane: LaneId,
    sent: &[CompactTx],
    old: &[Record],
    new: &[Record],
) -> Result<bool, AllocError>
    ensures { IfOk result (λ yes. IsTrue yes ↔ PreparesInPieces shape.now lane sent.now old.now new.now) }
{
    let mut wanted = pieces_of(alloc, shape.batch() as usize, sent)?.into_vec();
    wanted.reverse();
    add_prepared(alloc, lane, old, &mut wanted)?;
    let found = prepared_of(alloc, lane, new)?;
    Ok(are_lists(found.as_slice(), wanted.as_slice()))
}
