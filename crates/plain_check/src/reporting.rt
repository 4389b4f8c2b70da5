// The result of submissions.
ghost use Rattle.std.specs.Prelude.{◌≡◌, ◌<◌, Bool, length, IfSome};
ghost use Rattle.cbdc_model.specs.Coins.{FullTx as Full};
ghost use Rattle.cbdc_model.specs.Waves.{sent_to};
ghost use Rattle.plain_check.specs.Journals.{journals_in};
ghost use Rattle.submissions.specs.Checks.{TellsSound};
ghost use Rattle.printed_lines.specs.Runs.{sent_before};
ghost use Rattle.plain_check.specs.Summaries.{Fits, AllFit, AreTold, AreAllTold};

use crate::deciding::decided_at;
use crate::with_front;
use cbdc_types::{FullTx, LaneId, List, Record, Shape};
use printed_lines::Report;
use sentinel::Verifier;
use std::alloc::Global;
use submissions::{Checked, Judgement, check_all};

// How many sound submissions of a file go to a lane. None where memory ran out.
fn sent_in<V: Verifier>(
    alloc: Global,
    shape: &Shape,
    verifier: &V,
    file: &[FullTx],
    lane: usize,
) -> Option<usize>
    ensures { IfSome result (λ n. (sound : Full → Bool) → TellsSound (V.verdict_of verifier.now) sound
        → n ≡ length (sent_to shape.now sound file.now lane)) }
{
    let submitted = check_all(alloc, file, shape, verifier).ok()?;
    let list = submitted.lanes.get(lane)?;
    Some(list.len())
}

// How many sound submissions of files went to a lane. None where memory ran out, or it is no number of 64 bits.
fn sent_before<V: Verifier>(
    alloc: Global,
    shape: &Shape,
    verifier: &V,
    files: &[List<FullTx>],
    lane: usize,
) -> Option<usize>
    ensures { IfSome result (λ n. (sound : Full → Bool) → TellsSound (V.verdict_of verifier.now) sound
        → n ≡ sent_before shape.now sound files.now lane) }
{
    let Some((file, rest)) = files.split_first() else {
        return Some(0);
    };
    let own = sent_in(alloc, shape, verifier, file.as_slice(), lane)?;
    let others = sent_before(alloc, shape, verifier, rest, lane)?;
    own.checked_add(others)
}

// The result of a submission of a file behind earlier ones, of which a sentinel said this. None where memory ran out, or the
// journals do not decide it.
fn report_of<V: Verifier>(
    alloc: Global,
    shape: &Shape,
    verifier: &V,
    entry: &[List<Record>],
    exit: &[List<Record>],
    earlier: &[List<FullTx>],
    one: &Checked,
) -> Option<Report>
    ensures { IfSome result (Fits shape.now
        (V.verdict_of verifier.now) (journals_in entry.now) (journals_in exit.now) earlier.now one.now) }
{
    match one.judgement {
        Judgement::Refused(why) => Some(Report::Refused(why)),
        Judgement::Sound { lane, place } => {
            let number = u32::try_from(lane).ok()?;
            let before = sent_before(alloc, shape, verifier, earlier, lane)?;
            let turn = before.checked_add(place)?;
            let (batch, outcome) = decided_at(shape, entry, exit, LaneId(number), turn)?;
            Some(Report::Decided(batch, outcome))
        }
    }
}

// The same of each.
fn reports_in<V: Verifier>(
    alloc: Global,
    shape: &Shape,
    verifier: &V,
    entry: &[List<Record>],
    exit: &[List<Record>],
    earlier: &[List<FullTx>],
    checked: &[Checked],
) -> Option<List<Report>>
    ensures { IfSome result (AllFit shape.now
        (V.verdict_of verifier.now) (journals_in entry.now) (journals_in exit.now) earlier.now checked.now) }
{
    let Some((one, rest)) = checked.split_first() else {
        return Some(List::new(alloc));
    };
    let report = report_of(alloc, shape, verifier, entry, exit, earlier, one)?;
    let behind = reports_in(alloc, shape, verifier, entry, exit, earlier, rest)?;
    with_front(report, behind).ok()
}

// The result of the submissions of a file behind earlier ones.
fn reports_of_file<V: Verifier>(
    alloc: Global,
    shape: &Shape,
    verifier: &V,
    entry: &[List<Record>],
    exit: &[List<Record>],
    earlier: &[List<FullTx>],
    file: &[FullTx],
) -> Option<List<Report>>
    ensures { IfSome result (AreTold shape.now
        (V.verdict_of verifier.now) (journals_in entry.now) (journals_in exit.now) earlier.now file.now) }
{
    let submitted = check_all(alloc, file, shape, verifier).ok()?;
    reports_in(
        alloc,
        shape,
        verifier,
        entry,
        exit,
        earlier,
        &submitted.checked,
    )
}

/// The result of each submission of files, by the journals of all nodes at entry and at exit. None where memory ran out,
/// or the journals do not decide every sound one.
pub fn reports_of<V: Verifier>(
    alloc: Global,
    shape: &Shape,
    verifier: &V,
    entry: &[List<Record>],
    exit: &[List<Record>],
    files: &[List<FullTx>],
) -> Option<List<List<Report>>>
    ensures { IfSome result (AreAllTold shape.now
        (V.verdict_of verifier.now) (journals_in entry.now) (journals_in exit.now) files.now) }
{
    let mut all = Vec::new(alloc);
    'files: for (k, file) in files.iter().enumerate() {
        let (earlier, _) = files.split_at(k);
        let reports = reports_of_file(
            alloc,
            shape,
            verifier,
            entry,
            exit,
            earlier,
            file.as_slice(),
        )?;
        all.push(reports).ok()?;
    }
    Some(List::from_vec(all))
}
