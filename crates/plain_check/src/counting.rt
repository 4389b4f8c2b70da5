// The numbers that end the text of a run.
ghost use Rattle.std.specs.Prelude.{◌≡◌, ◌*◌, ◌≤◌, length, IfSome};
ghost use Rattle.std.specs.List.{filter};
ghost use Rattle.plain_check.specs.Journals.{journals_in};
ghost use Rattle.printed_lines.specs.Runs.{count_in};
ghost use Rattle.plain_check.specs.Summaries.{tells, IsSummary};

use crate::deciding::batches_of;
use crate::recovering::resumed_count;
use cbdc_types::{List, Record, Shape};
use line_text::Summary;
use printed_lines::Report;
use same_records::is_won;

/// What may be told of a submission.
#[derive(Clone, Copy)]
pub enum Told {
    Confirmed,
    Rejected,
    Refused,
}

// Whether a report tells this.
fn tells(told: Told, report: &Report) -> bool
    ensures { result ≡ tells told report.now }
{
    match report {
        Report::Refused(_) => match told {
            Told::Refused => true,
            Told::Confirmed | Told::Rejected => false,
        },
        Report::Decided(_, outcome) => match told {
            Told::Confirmed => is_won(outcome),
            Told::Rejected => !is_won(outcome),
            Told::Refused => false,
        },
    }
}

// How many reports tell this of their submissions.
fn count_in(told: Told, reports: &[Report]) -> usize
    ensures count { result ≡ length (filter (tells told) reports.now) }
    ensures bound { result ≤ length reports.now }
{
    let Some((report, rest)) = reports.split_first() else {
        return 0;
    };
    let behind = count_in(told, rest);
    if tells(told, report) {
        behind + 1
    } else {
        behind
    }
}

// The same over all files, where that is a number of 64 bits.
fn count_over(told: Told, all: &[List<Report>]) -> Option<u64>
    ensures { IfSome result (λ n. n ≡ count_in (tells told) all.now) }
{
    let Some((reports, rest)) = all.split_first() else {
        return Some(0);
    };
    count_over(told, rest)?.checked_add(count_in(told, reports.as_slice()) as u64)
}

/// The numbers that end the text of a run, where they are numbers of 64 bits.
pub fn summary_of(
    shape: &Shape,
    entry: &[List<Record>],
    exit: &[List<Record>],
    all: &[List<Report>],
    unspent: u64,
) -> Option<Summary>
    ensures { IfSome result
        (IsSummary shape.now (journals_in entry.now) (journals_in exit.now) all.now unspent) }
{
    Some(Summary {
        resumed: resumed_count(shape, entry),
        batches: batches_of(shape, entry, exit)?,
        confirmed: count_over(Told::Confirmed, all)?,
        rejected: count_over(Told::Rejected, all)?,
        refused: count_over(Told::Refused, all)?,
        unspent,
    })
}
