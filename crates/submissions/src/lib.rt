//! What sentinels make of a file's submissions: an id for each, and a refusal or a place on a lane.
//!
//! - `is_sound_law`, `sound_test_law`, `one_test_law`: There is one test that says yes exactly for the sound transactions. No contract of a public
//!   function cites these laws: what `check_all`, `run_file` and `process` say of every such test is, by them, said of one.
#![tactic(auto)]

mod sound;

ghost use Rattle.std.specs.Prelude.{◌≡◌, ◌+◌, ◌%◌, ◌<◌, ℕ, List, length, IfOk, IfErr};
ghost use Rattle.std.specs.List.{AllZip};
ghost use Rattle.cbdc_model.specs.Coins.{FullTx as Full, tx_id as spec_id};
ghost use Rattle.sentinel.specs.FirstRefusal.{IsSoundTx};
ghost use Rattle.submissions.specs.Checks.{VerdictsOf, AllEmpty, IsJudged, IsRuled, IsDealt, IsDealtAt, AreSubmitted};

use cbdc_types::{CompactTx, FullTx, Hash, Refusal, Shape};
use sentinel::{Verifier, check, compact_as, tx_id};
pub use sound::{is_sound_law, one_test_law, sound_test_law};
use std::alloc::{AllocError, Global};

/// What a sentinel says of a submission.
#[derive(Clone, Copy, Debug)]
pub enum Judgement {
    Refused(Refusal),
    /// It is sound: the lane that it goes to, and its place among the sound ones there.
    Sound { lane: usize, place: usize },
}

/// A submission's id, and what a sentinel says of it.
#[derive(Clone, Copy, Debug)]
pub struct Checked {
    pub id: Hash,
    pub judgement: Judgement,
}

/// What a sentinel makes of a transaction: the first reason to refuse it, or its compact form.
#[derive(Drop)]
pub enum Ruling {
    Refused(Refusal),
    Sound(CompactTx),
}

/// A transaction's id, and what a sentinel makes of it.
#[derive(Drop)]
pub struct Ruled {
    pub id: Hash,
    pub ruling: Ruling,
}

/// A transaction's id, and the first reason to refuse it, if there is one.
#[derive(Clone, Copy, Debug)]
pub struct Judged {
    pub id: Hash,
    pub refusal: Option<Refusal>,
}

/// The submissions of a file: what a sentinel says of each, and the compact forms of the sound ones by lane, in order.
#[derive(Drop)]
pub struct Submitted {
    pub checked: Vec<Checked>,
    pub lanes: Vec<Vec<CompactTx>>,
}

// So many empty lists.
fn empty_lanes(alloc: Global, count: u32) -> Result<Vec<Vec<CompactTx>>, AllocError>
    ensures count { IfOk result (λ v. length v.items ≡ count) }
    ensures empty { IfOk result (λ v. AllEmpty v.items) }
{
    let mut lanes = Vec::with_capacity(alloc, count as usize)?;
    'lanes: for _ in 0..count {
        lanes.push(Vec::new(alloc))?;
    }
    Ok(lanes)
}

/// What a sentinel says of a transaction. It takes no memory.
pub fn judge<V: Verifier>(tx: &FullTx, verifier: &V) -> Judged
    ensures { IsJudged (V.verdict_of verifier.now) tx.now result }
{
    let id = tx_id(tx);
    match check(tx, &id, verifier) {
        Ok(()) => Judged { id, refusal: None },
        Err(refusal) => Judged {
            id,
            refusal: Some(refusal),
        },
    }
}

/// What a sentinel makes of a transaction. Memory runs out only for one that is sound.
pub fn rule<V: Verifier>(alloc: Global, tx: &FullTx, verifier: &V) -> Result<Ruled, AllocError>
    ensures ruled { IfOk result (IsRuled (V.verdict_of verifier.now) tx.now) }
    ensures sound { IfErr result (λ _. IsSoundTx tx.now (V.verdict_of verifier.now (spec_id tx.now))) }
{
    let id = tx_id(tx);
    match check(tx, &id, verifier) {
        Ok(()) => Ok(Ruled {
            id,
            ruling: Ruling::Sound(compact_as(alloc, &id, tx)?),
        }),
        Err(refusal) => Ok(Ruled {
            id,
            ruling: Ruling::Refused(refusal),
        }),
    }
}

// The same of each, one after another.
fn rule_each<V: Verifier>(
    alloc: Global,
    txs: &[FullTx],
    verifier: &V,
) -> Result<Vec<Ruled>, AllocError>
    ensures { IfOk result (λ v. AllZip (IsRuled (V.verdict_of verifier.now)) txs.now v.items) }
{
    let mut ruled = Vec::with_capacity(alloc, txs.len())?;
    'transactions: for tx in txs {
        ruled.push(rule(alloc, tx, verifier)?)?;
    }
    Ok(ruled)
}

// Keeps what was made of a transaction that goes to this lane; where it is sound, its compact form goes to the end of the lane's list.
fn deal_one(ruled: Ruled, lane: usize, list: &mut Vec<CompactTx>) -> Result<Checked, AllocError>
    ensures dealt { IfOk result (IsDealt ruled lane list.old.items list.new.items) }
{
    let id = ruled.id;
    match ruled.ruling {
        Ruling::Sound(own) => {
            let place = list.len();
            list.push(own)?;
            Ok(Checked {
                id,
                judgement: Judgement::Sound { lane, place },
            })
        }
        Ruling::Refused(refusal) => Ok(Checked {
            id,
            judgement: Judgement::Refused(refusal),
        }),
    }
}

// The same among the lists of all lanes.
fn place_one(
    ruled: Ruled,
    lane: usize,
    lanes: &mut Vec<Vec<CompactTx>>,
) -> Result<Checked, AllocError>
    requires { lane < length lanes.old.items }
    ensures dealt { IfOk result (IsDealtAt ruled lane lanes.old.items lanes.new.items) }
{
    deal_one(ruled, lane, &mut lanes[lane])
}

// The lane that the next submission goes to.
fn next_lane(lane: usize, count: usize) -> usize
    requires { lane < count }
    ensures below { result < count }
    ensures next { (place : ℕ) → lane ≡ place % count → result ≡ (place + 1) % count }
{
    if lane + 1 < count { lane + 1 } else { 0 }
}

// Deals what was made of the submissions of a file to lanes.
fn deal(alloc: Global, ruled: Vec<Ruled>, shape: &Shape) -> Result<Submitted, AllocError>
    ensures { IfOk result (λ s. (verdicts : VerdictsOf) (txs : List Full)
        → AllZip (IsRuled verdicts) txs ruled.items → AreSubmitted shape.now verdicts txs s) }
{
    let mut lanes = empty_lanes(alloc, shape.lane_count())?;
    let mut checked = Vec::with_capacity(alloc, ruled.len())?;
    let count = lanes.len();
    let mut lane = 0;
    'submissions: for one in ruled {
        checked.push(place_one(one, lane, &mut lanes)?)?;
        lane = next_lane(lane, count);
    }
    Ok(Submitted { checked, lanes })
}

/// Checks the submissions of a file. The one at place j goes to lane j modulo the number of lanes.
///
/// Each submission's id, with the first reason to refuse it, or its lane and place; each lane gets the compact forms of the sound ones that go to
/// it, in order (said by every test that says yes exactly for the sound ones; that there is one, and one alone, is a law: `sound_test_law`,
/// `one_test_law`), and nothing else (said outright) ((`AreSubmitted`)).
pub fn check_all<V: Verifier>(
    alloc: Global,
    txs: &[FullTx],
    shape: &Shape,
    verifier: &V,
) -> Result<Submitted, AllocError>
    ensures { IfOk result (AreSubmitted shape.now (V.verdict_of verifier.now) txs.now) }
{
    deal(alloc, rule_each(alloc, txs, verifier)?, shape)
}
