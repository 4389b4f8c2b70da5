// The audit of a history.
ghost use Rattle.std.specs.Prelude.{◌≡◌, ◌↔◌, ◌++◌, [], ℕ, All, List as Items, IfOk, IsTrue, MatchOption};
ghost use Rattle.std.specs.List.{AllZip};
ghost use Rattle.cbdc_model.specs.Records.{Compact, Record as ModelRecord};
ghost use Rattle.cbdc_model.specs.Coins.{Output as ModelOutput};
ghost use Rattle.cbdc_model.specs.Clean.{value_out};
ghost use Rattle.cbdc_model.specs.History.{newly_won};
ghost use Rattle.audit.specs.Rows.{read, rows_at, IsRecordPlace};
ghost use Rattle.audit.specs.Knowing.{Knows};
ghost use Rattle.audit.specs.Walks.{AllDone, HasDoneRecord, IsFirstOpen};
ghost use Rattle.audit.specs.Spending.{IsFirstWrong};
ghost use Rattle.audit.specs.Verdicts.{IsVerdict};
ghost use Rattle.audit.specs.Keeping.{IsIndex, IsFormOf, HasSpent, IsWalked};

use crate::caused::{home_of, is_caused, txs_of};
use crate::compacting::forms_of;
use crate::folding::Fold;
use crate::handed::ById;
use crate::known::Known;
use crate::verdict::Verdict;
use crate::{Place, record_at};
use cbdc_types::{CompactTx, FullTx, Output, Record, RecordKind, Shape, Totals, UnsoundKind};
use std::alloc::{AllocError, Global};
use std::thread::Threads;

/// What a walk has come to: all places, with what is known then, or the first place at which something is wrong.
#[derive(Drop)]
pub(crate) enum Walked {
    Whole(Known),
    Stopped { place: u64, kind: UnsoundKind },
}

// Spends what a record commits. What is wrong, if something is.
fn commit(
    known: &Known,
    journals: &[&[Record]],
    node: u32,
    r: &Record,
    ids: &ById,
    handed: &[FullTx],
    compacts: &[CompactTx],
    fold: &mut Fold,
) -> Result<Option<UnsoundKind>, AllocError>
    requires index { IsIndex handed.now ids.now }
    requires compacts { AllZip IsFormOf handed.now compacts.now }
    ensures { (mint : Items ModelOutput)
        → (forms : Items Compact) → (J : ℕ → Items ModelRecord) → Knows (read journals.now) known.now J
        → IsIndex handed.now ids.now → HasSpent mint handed.now forms fold.old → IfOk result
        (λ o. MatchOption o (HasSpent mint handed.now (forms ++ newly_won r.now (J node)) fold.new)
        (IsFirstWrong mint handed.now forms (newly_won r.now (J node)))) }
{
    match r {
        Record::Commit {
            batch,
            outcomes,
            ..
        } => {
            let txs = txs_of(known, journals, node, batch);
            fold.commit(ids, handed, compacts, txs, outcomes.as_slice())
        }
        _ => Ok(None),
    }
}

/// Walks over a history, and spends what it commits.
pub(crate) fn walk(
    alloc: Global,
    shape: &Shape,
    journals: &[&[Record]],
    history: &[Place],
    ids: &ById,
    handed: &[FullTx],
    compacts: &[CompactTx],
    fold: &mut Fold,
) -> Result<Walked, AllocError>
    requires places { All (IsRecordPlace (read journals.now)) history.now }
    requires index { IsIndex handed.now ids.now }
    requires compacts { AllZip IsFormOf handed.now compacts.now }
    ensures { (mint : Items ModelOutput) → IsIndex handed.now ids.now → HasSpent mint handed.now [] fold.old
        → IfOk result (IsWalked shape.now mint handed.now (read journals.now) history.now fold.new) }
{
    let mut known = Known::new(alloc);
    'places: for at in 0..history.len() {
        let place = history[at];
        let r = record_at(journals, place);
        if !is_caused(alloc, &known, journals, shape, place.node, r)? {
            return Ok(Walked::Stopped {
                place: at as u64,
                kind: UnsoundKind::Cause,
            });
        }
        if let Some(kind) = commit(&known, journals, place.node, r, ids, handed, compacts, fold)? {
            return Ok(Walked::Stopped {
                place: at as u64,
                kind,
            });
        }
        known.note(place.node, place.index, r)?;
    }
    Ok(Walked::Whole(known))
}

// Whether a record's batch is done, where it is a Prepare.
fn is_done(known: &Known, journals: &[&[Record]], shape: &Shape, r: &Record) -> bool
    ensures { (J : ℕ → Items ModelRecord) → Knows (read journals.now) known.now J
        → (IsTrue result ↔ HasDoneRecord shape.now J r.now) }
{
    match r {
        Record::Prepare { batch, .. } => known
            .found(
                journals,
                home_of(shape, batch),
                RecordKind::Done as u64,
                batch,
            )
            .is_some(),
        _ => true,
    }
}

// The first place of a Prepare whose batch is not done.
fn first_open(
    known: &Known,
    journals: &[&[Record]],
    shape: &Shape,
    history: &[Place],
) -> Option<u64>
    requires { All (IsRecordPlace (read journals.now)) history.now }
    ensures { (J : ℕ → Items ModelRecord) → Knows (read journals.now) known.now J
        → MatchOption result (AllDone shape.now J (rows_at (read journals.now) history.now))
        (IsFirstOpen shape.now J (rows_at (read journals.now) history.now)) }
{
    'places: for at in 0..history.len() {
        let r = record_at(journals, history[at]);
        let done = is_done(known, journals, shape, r);
        if !done {
            return Some(at as u64);
        }
    }
    None
}

/// The sum of the minted values.
pub(crate) fn minted(mint: &[Output]) -> u128
    ensures { result ≡ value_out mint.now }
{
    let mut minted = 0u128;
    'outputs: for output in mint {
        minted += u128::from(output.value);
    }
    minted
}

/// Walks over a history from its oldest place on. At each record it tries whether the record is caused by those before it, and at a
/// Commit, for each committed transaction in the order of the batch, whether a transaction with its compact form was handed in, and
/// whether the first such one can be spent from the book, which begins as the mint. The first failure is the answer. Then the first
/// Prepare whose batch is not done is, if there is one. Else the answer is what the last book, the mint and the committed transactions
/// come to. The compact forms of what was handed in are made by all processors.
///
/// Tested in `ledger_rows` (`audit.rows`). `unspent_law` holds where no hashes clash.
pub fn audit<W: Threads + Sync>(
    rt: &W,
    alloc: Global,
    shape: &Shape,
    journals: &[&[Record]],
    history: &[Place],
    mint: &[Output],
    handed: &[FullTx],
) -> Result<Verdict, AllocError>
    requires places { All (IsRecordPlace (read journals.now)) history.now }
    ensures { IfOk result
        (IsVerdict shape.now mint.now handed.now (rows_at (read journals.now) history.now)) }
{
    let compacts = forms_of(rt, alloc, handed)?;
    let ids = ById::of(alloc, handed, &compacts)?;
    let mut fold = Fold::of_mint(alloc, mint, handed)?;
    match walk(
        alloc, shape, journals, history, &ids, handed, &compacts, &mut fold,
    )? {
        Walked::Stopped { place, kind } => Ok(Verdict::Unsound { place, kind }),
        Walked::Whole(known) => match first_open(&known, journals, shape, history) {
            Some(place) => Ok(Verdict::Unsound {
                place,
                kind: UnsoundKind::Unfinished,
            }),
            None => Ok(Verdict::Sound(Totals {
                coins: fold.book.len(),
                value: fold.book.value(),
                minted: minted(mint),
                committed: fold.committed,
                money: fold.book.money(),
                issued: fold.issued,
                redeemed: fold.redeemed,
            })),
        },
    }
}
