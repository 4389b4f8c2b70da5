// The lines of a run.
ghost use Rattle.std.specs.Prelude.{◌≡◌, ◌≤◌, ◌+◌, ◌++◌, min, not, if◌then◌else◌, Some, slice_get};
ghost use Rattle.outside.specs.Counts.{HasCause};
ghost use Rattle.cbdc_model.specs.Records.{is_won};
ghost use Rattle.line_text.specs.Lines.{Prints};
ghost use Rattle.line_text.specs.Reports.{audit_text};
ghost use Rattle.printed_lines.specs.Runs.{decided_line};
ghost use Rattle.run_lines.specs.Pages.{GathersText};
ghost use Rattle.run_lines.specs.Told.{numbers_of, kept_in_lane, told_report, told_line, told_file, told_files, told_count, told_total, one_where, batches_in, batches_told, IsCounted, AreCounts, IsCountable, AreNumbers, ran_text};

use crate::page::Page;
use cbdc_types::{BatchId, Hash, Outcome, Totals};
use file_runs::{Ran, Wave};
use ledger_runs::Decided;
use line_text::{
    Summary, WriteFault, write_all, write_audit, write_confirmed, write_refused, write_rejected,
    write_summary,
};
use outside::Sink;
use printed_lines::Report;
use submissions::{Checked, Judgement};

// How many submissions were confirmed, rejected and refused.
#[derive(Clone, Copy, Debug)]
struct Counts {
    confirmed: u64,
    rejected: u64,
    refused: u64,
}

// What a lane keeps at a place.
fn kept_at(wave: &Wave, lane: usize, place: usize) -> Option<Decided>
    ensures { result ≡ kept_in_lane (slice_get wave.now.lanes.items lane) place }
{
    match wave.lanes.get(lane) {
        Some(lane) => lane.decided.get(place).copied(),
        None => None,
    }
}

// The result of a submission.
fn report_of(wave: &Wave, one: &Checked) -> Option<Report>
    ensures { result ≡ told_report wave.now.lanes.items one.now.judgement }
{
    match one.judgement {
        Judgement::Refused(why) => Some(Report::Refused(why)),
        Judgement::Sound { lane, place } => match kept_at(wave, lane, place) {
            Some(Decided { batch, outcome }) => Some(Report::Decided(batch, outcome)),
            None => None,
        },
    }
}

// How many batches were prepared.
fn batches_of(wave: &Wave) -> u64
    ensures { IsCounted result (batches_in wave.now.lanes.items) }
{
    let mut batches = 0u64;
    'lanes: for lane in &wave.lanes {
        batches = batches.saturating_add(lane.batches);
    }
    batches
}

impl Counts {
    // Of no submission.
    fn none() -> Counts
        ensures confirmed { result.confirmed ≡ 0 }
        ensures rejected { result.rejected ≡ 0 }
        ensures refused { result.refused ≡ 0 }
    {
        Counts {
            confirmed: 0,
            rejected: 0,
            refused: 0,
        }
    }

    // Of a submission that has this outcome.
    fn decided(outcome: &Outcome) -> Counts
        ensures confirmed { result.confirmed ≡ (if is_won outcome.now then 1 else 0) }
        ensures rejected { result.rejected ≡ (if not (is_won outcome.now) then 1 else 0) }
        ensures refused { result.refused ≡ 0 }
    {
        let mut counts = Counts::none();
        match outcome {
            Outcome::Held => counts.confirmed = 1,
            Outcome::Missing(_, _) => counts.rejected = 1,
            Outcome::Locked(_, _, _) => counts.rejected = 1,
        }
        counts
    }

    // Of a submission of which this came.
    fn reported(report: &Report) -> Counts
        ensures { AreCounts result (λ test. one_where test (Some report.now)) }
    {
        match report {
            Report::Refused(_) => Counts {
                confirmed: 0,
                rejected: 0,
                refused: 1,
            },
            Report::Decided(_, outcome) => Counts::decided(outcome),
        }
    }

    // Of one submission.
    fn one(report: &Option<Report>) -> Counts
        ensures { AreCounts result (λ test. one_where test report.now) }
    {
        match report {
            Some(report) => Counts::reported(report),
            None => Counts::none(),
        }
    }

    // Of more submissions.
    fn more(self, other: Counts) -> Counts
        ensures confirmed { result.confirmed ≡ min (self.confirmed + other.confirmed) 18446744073709551615 }
        ensures rejected { result.rejected ≡ min (self.rejected + other.rejected) 18446744073709551615 }
        ensures refused { result.refused ≡ min (self.refused + other.refused) 18446744073709551615 }
    {
        Counts {
            confirmed: self.confirmed.saturating_add(other.confirmed),
            rejected: self.rejected.saturating_add(other.rejected),
            refused: self.refused.saturating_add(other.refused),
        }
    }

    // Of the submissions of a file.
    fn of(wave: &Wave) -> Counts
        ensures { AreCounts result (λ test. told_count test wave.now.lanes.items wave.now.checked.items) }
    {
        let mut counts = Counts::none();
        'ones: for one in &wave.checked {
            counts = counts.more(Counts::one(&report_of(wave, one)));
        }
        counts
    }

    // Of the submissions of all files.
    fn of_all(waves: &[Wave]) -> Counts
        ensures { AreCounts result (λ test. told_total test waves.now) }
    {
        let mut counts = Counts::none();
        'waves: for wave in waves {
            counts = counts.more(Counts::of(wave));
        }
        counts
    }
}

// How many batches were prepared for all files.
fn all_batches(waves: &[Wave]) -> u64
    ensures { IsCounted result (batches_told waves.now) }
{
    let mut batches = 0u64;
    'waves: for wave in waves {
        batches = batches.saturating_add(batches_of(wave));
    }
    batches
}

// The numbers that end the text.
fn summary_of(ran: &Ran) -> Summary
    ensures { IsCountable ran.now → AreNumbers ran.now result }
{
    let counts = Counts::of_all(&ran.waves);
    Summary {
        resumed: ran.resumed.len() as u64,
        batches: all_batches(&ran.waves),
        confirmed: counts.confirmed,
        rejected: counts.rejected,
        refused: counts.refused,
        unspent: ran.unspent,
    }
}

// Writes the line of a submission that was decided.
fn write_decided<O: Sink>(
    out: &mut O,
    file: u64,
    place: u64,
    id: &Hash,
    batch: BatchId,
    outcome: Outcome,
) -> Result<(), WriteFault>
    ensures prints { Prints (O.taken out.old) (O.taken out.new)
        (decided_line file place id.now batch outcome) result }
    ensures cause { HasCause (O.count out.old) (O.count out.new) result }
{
    match outcome {
        Outcome::Held => write_confirmed(out, file, place, id, batch),
        Outcome::Missing(_, _) => write_rejected(out, file, place, id, &outcome, batch),
        Outcome::Locked(_, _, _) => write_rejected(out, file, place, id, &outcome, batch),
    }
}

// Writes the line of one submission.
fn write_one<O: Sink>(
    out: &mut O,
    file: u64,
    place: u64,
    id: &Hash,
    report: Option<Report>,
) -> Result<(), WriteFault>
    ensures prints { Prints (O.taken out.old) (O.taken out.new) (told_line file place id.now report) result }
    ensures cause { HasCause (O.count out.old) (O.count out.new) result }
{
    match report {
        Some(Report::Refused(why)) => write_refused(out, file, place, id, &why),
        Some(Report::Decided(batch, outcome)) => write_decided(
            out, file, place, id, batch, outcome,
        ),
        None => Ok(()),
    }
}

// Puts the line of one submission on the page. Where it finds no room there, what waits is written, and the line behind it.
fn gather_one<O: Sink>(
    out: &mut O,
    page: &mut Page,
    file: u64,
    place: u64,
    id: &Hash,
    report: &Option<Report>,
) -> Result<(), WriteFault>
    ensures gathers { GathersText (O.taken out.old) page.old.text.items
        (O.taken out.new) page.new.text.items (told_line file place id.now report.now) result }
    ensures cause { HasCause (O.count out.old) (O.count out.new) result }
{
    let waiting = page.len();
    match write_one(page, file, place, id, *report) {
        Ok(()) => Ok(()),
        Err(_) => {
            page.truncate(waiting);
            write_all(out, page.lines())?;
            page.truncate(0);
            write_one(out, file, place, id, *report)
        }
    }
}

// Puts the lines of a file's submissions on the page, and writes what finds no room there.
fn gather_wave<O: Sink>(
    out: &mut O,
    page: &mut Page,
    wave: &Wave,
    file: u64,
) -> Result<(), WriteFault>
    ensures gathers { GathersText (O.taken out.old) page.old.text.items
        (O.taken out.new) page.new.text.items
        (told_file file 0 wave.now.lanes.items wave.now.checked.items) result }
    ensures cause { HasCause (O.count out.old) (O.count out.new) result }
{
    let mut place = 0u64;
    'lines: for one in &wave.checked {
        gather_one(out, page, file, place, &one.id, &report_of(wave, one))?;
        place = place.saturating_add(1);
    }
    Ok(())
}

// Writes the lines of all files' submissions, a page at a time.
fn write_waves<O: Sink>(out: &mut O, waves: &[Wave]) -> Result<(), WriteFault>
    ensures prints { Prints (O.taken out.old) (O.taken out.new) (told_files 1 waves.now) result }
    ensures cause { HasCause (O.count out.old) (O.count out.new) result }
{
    let mut page = Page::new();
    let mut file = 1u64;
    'waves: for wave in waves {
        gather_wave(out, &mut page, wave, file)?;
        file = file.saturating_add(1);
    }
    write_all(out, page.lines())
}

/// Writes a line for each submission, in order of file and place, and the summary.
pub fn write_report<O: Sink>(out: &mut O, ran: &Ran) -> Result<(), WriteFault>
    ensures prints { IsCountable ran.now
        → Prints (O.taken out.old) (O.taken out.new) (ran_text ran.now) result }
    ensures cause { HasCause (O.count out.old) (O.count out.new) result }
{
    write_waves(out, &ran.waves)?;
    write_summary(out, &summary_of(ran))
}

/// Writes the numbers that end the text of a run, and those of an audit behind it.
pub fn write_generated<O: Sink>(out: &mut O, ran: &Ran, totals: &Totals) -> Result<(), WriteFault>
    ensures prints { IsCountable ran.now → Prints (O.taken out.old) (O.taken out.new)
        (numbers_of ran.now ++ audit_text totals.now) result }
    ensures cause { HasCause (O.count out.old) (O.count out.new) result }
{
    write_summary(out, &summary_of(ran))?;
    write_audit(out, totals)
}
