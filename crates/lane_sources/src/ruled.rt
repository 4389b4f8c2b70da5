// What sentinels make of the submissions of a file.
ghost use Rattle.std.specs.Prelude.{◌≡◌, ◌<◌, length, IfOk, IfErr};
ghost use Rattle.cbdc_model.specs.Coins.{tx_id as spec_id};
ghost use Rattle.sentinel.specs.FirstRefusal.{IsSoundTx};
ghost use Rattle.submissions.specs.Checks.{IsRuled};
ghost use Rattle.lane_sources.specs.Sources.{SubmissionAt};

use crate::file::{Deals, FileOf};
use rayon::prelude::*;
use sentinel::Verifier;
use std::alloc::{AllocError, Global};
use std::marker::{Model, PhantomData};
use std::thread::Threads;
use submissions::{Ruled, rule};

/// A place of the file that `F` picks, with what a sentinel makes of the submission there: its type says that it is this one's.
#[derive(Drop)]
pub struct RuledAt<F: Deals> {
    place: usize,
    ruled: Ruled,
    of: PhantomData<F>,
}

impl<F: Deals> Model for RuledAt<F> {
    ghost use Rattle.lane_sources.specs.Sources.{RuledOf, IsRuledAt};

    ghost Value = { RuledOf };

    ghost view = { λ r. record { place = r.place; ruled = r.ruled } };

    ghost invariant = { λ r. IsRuledAt F.verdicts F.file r.place r.ruled };
}

impl<F: Deals> RuledAt<F> {
    /// The place.
    pub fn place(&self) -> usize
        ensures { result ≡ self.now.place }
    {
        self.place
    }

    /// What a sentinel makes of the submission there.
    pub fn take(self) -> Ruled
        ensures { SubmissionAt F.file self.place (λ t. IsRuled F.verdicts t result) }
    {
        self.ruled
    }
}

/// What a sentinel makes of the submission at a place. Memory runs out only for a sound one.
pub fn rule_at<'a, V: Verifier, F: Deals>(
    alloc: Global,
    file: &FileOf<'a, V, F>,
    place: usize,
) -> Result<RuledAt<F>, AllocError>
    requires { place < length F.file }
    ensures place { IfOk result (λ r. r.place ≡ place) }
    ensures sound { IfErr result
        (λ _. SubmissionAt F.file place (λ t. IsSoundTx t (F.verdicts (spec_id t)))) }
{
    Ok(RuledAt {
        place,
        ruled: rule(alloc, &file.txs()[place], file.verifier())?,
        of: PhantomData,
    })
}

/// What was found ahead, where it is of this place; or what a sentinel makes of the submission there now. Memory runs out only for a sound
/// one.
pub(crate) fn found_or_now<'a, V: Verifier, F: Deals>(
    alloc: Global,
    file: &FileOf<'a, V, F>,
    place: usize,
    ahead: Option<RuledAt<F>>,
) -> Result<Ruled, AllocError>
    requires { place < length F.file }
    ensures ruled { IfOk result (λ r. SubmissionAt F.file place (λ t. IsRuled F.verdicts t r)) }
    ensures sound { IfErr result
        (λ _. SubmissionAt F.file place (λ t. IsSoundTx t (F.verdicts (spec_id t)))) }
{
    if let Some(found) = ahead {
        if found.place() == place {
            return Ok(found.take());
        }
    }
    Ok(rule_at(alloc, file, place)?.take())
}

// How many submissions of a lane there are from a place on, up to so many.
fn count_from<'a, V: Verifier, F: Deals>(
    file: &FileOf<'a, V, F>,
    from: usize,
    many: usize,
) -> usize {
    file.txs()
        .len()
        .saturating_sub(from)
        .div_ceil(file.lanes())
        .min(many)
}

// What a sentinel makes of a lane's submission number `n` from a place on, from 0. Nobody asks for one past the end: it says there that memory ran out.
fn rule_nth<'a, V: Verifier, F: Deals>(
    alloc: Global,
    file: &FileOf<'a, V, F>,
    from: usize,
    n: usize,
) -> Result<RuledAt<F>, AllocError> {
    let place = from.saturating_add(file.lanes().saturating_mul(n));
    if place < file.txs().len() {
        rule_at(alloc, file, place)
    } else {
        Err(AllocError)
    }
}

/// What a sentinel makes of so many submissions of a lane from a place on, as far as there are so many, the last one first; or memory ran out.
pub(crate) fn rule_some<'a, V: Verifier, F: Deals>(
    alloc: Global,
    file: &FileOf<'a, V, F>,
    from: usize,
    many: usize,
) -> Result<Vec<RuledAt<F>>, AllocError> {
    let count = count_from(file, from, many);
    let mut rulings = Vec::with_capacity(alloc, count)?;
    'submissions: for n in (0..count).rev() {
        rulings.push(rule_nth(alloc, file, from, n)?)?;
    }
    Ok(rulings)
}

/// What sentinels make of so many submissions of a lane from a place on, as far as there are so many, the last one first, in as many threads as
/// there are processors; or memory ran out.
pub fn rule_ahead<'a, W: Threads + Sync, V: Verifier + Sync, F: Deals + Send + Sync>(
    rt: &W,
    alloc: Global,
    file: &FileOf<'a, V, F>,
    from: usize,
    many: usize,
) -> Result<Vec<RuledAt<F>>, AllocError> {
    (0..count_from(file, from, many))
        .into_par_iter()
        .rev()
        .map(|n: usize| -> Result<RuledAt<F>, AllocError> { rule_nth(alloc, file, from, n) })
        .collect::<Result<Vec<RuledAt<F>>, AllocError>>(rt, alloc)?
}
