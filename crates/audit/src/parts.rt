// The audit of a part of a ledger at work.
ghost use Rattle.std.specs.Prelude.{All, IfOk};
ghost use Rattle.audit.specs.Rows.{read, rows_at, IsRecordPlace};
ghost use Rattle.audit.specs.Parts.{IsPartVerdict};

use crate::Place;
use crate::auditing::{Walked, minted, walk};
use crate::compacting::forms_of;
use crate::folding::Fold;
use crate::handed::ById;
use crate::sizes::{Sizes, sizes_of};
use cbdc_types::{FullTx, Output, Record, Shape, UnsoundKind};
use std::alloc::{AllocError, Global};
use std::thread::Threads;

/// What the book of a part is made of, in hashes: those that are unspent at their shards; those that are held there for transactions that are not
/// committed; and those that are owed, outputs of committed transactions that are not there yet. What its coins come to, and what was minted.
#[derive(Clone, Copy, Debug, PartialEq, Eq)]
pub struct Part {
    pub unspent: u64,
    pub held: u64,
    pub owed: u64,
    pub value: u128,
    pub minted: u128,
}

/// What an audit finds of a part.
#[derive(Clone, Copy, Debug, PartialEq, Eq)]
pub enum PartVerdict {
    /// Nothing is wrong.
    Sound(Part),
    /// The record at this place is the first that is wrong.
    Unsound { place: u64, kind: UnsoundKind },
}

/// Walks over a history as `audit` does, but that batches may be open at its end. The answer is the first failure, or how many hashes are unspent,
/// held and owed behind it, what the coins of the last book come to, and what was minted.
///
/// Of the cut of a ledger at work `cut_audit` shows that nothing is wrong with it and that the value is what was minted, where no two outputs share
/// a hash.
pub fn audit_part<W: Threads + Sync>(
    rt: &W,
    alloc: Global,
    shape: &Shape,
    journals: &[&[Record]],
    history: &[Place],
    mint: &[Output],
    handed: &[FullTx],
) -> Result<PartVerdict, AllocError>
    requires places { All (IsRecordPlace (read journals.now)) history.now }
    ensures { IfOk result
        (IsPartVerdict shape.now mint.now handed.now (rows_at (read journals.now) history.now)) }
{
    let compacts = forms_of(rt, alloc, handed)?;
    let ids = ById::of(alloc, handed, &compacts)?;
    let mut fold = Fold::of_mint(alloc, mint, handed)?;
    match walk(
        alloc, shape, journals, history, &ids, handed, &compacts, &mut fold,
    )? {
        Walked::Stopped { place, kind } => Ok(PartVerdict::Unsound { place, kind }),
        Walked::Whole(_known) => {
            let Sizes {
                unspent,
                held,
                owed,
            } = sizes_of(alloc, shape, journals, history)?;
            Ok(PartVerdict::Sound(Part {
                unspent,
                held,
                owed,
                value: fold.book.value(),
                minted: minted(mint),
            }))
        }
    }
}
