// The lines of `run`.
ghost use Rattle.std.specs.Prelude.{◌≡◌, ◌+◌, ◌*◌, ◌<◌, ◌++◌, IfSome, OnOk};
ghost use Rattle.line_text.specs.Lines.{summary_text};
ghost use Rattle.plain_check.specs.Journals.{journals_in};
ghost use Rattle.printed_lines.specs.Runs.{report_line, file_lines, files_lines, IsRunLines};

use crate::counting::summary_of;
use crate::line_unspent::unspent_count;
use crate::page::Page;
use crate::reporting::reports_of;
use cbdc_types::{FullTx, Hash, List, Outcome, Record, Shape};
use line_text::{
    Summary, WriteFault, write_confirmed, write_refused, write_rejected, write_summary,
};
use printed_lines::Report;
use sentinel::{Verifier, tx_id};
use std::alloc::Global;

// Puts the line of a submission on a page.
fn put_report(
    page: &mut Page,
    file: u64,
    place: u64,
    id: &Hash,
    report: &Report,
) -> Result<(), WriteFault>
    ensures { OnOk result (page.new.text.items
        ≡ page.old.text.items ++ report_line file place id.now report.now) }
{
    match report {
        Report::Refused(why) => write_refused(page, file, place, id, why),
        Report::Decided(batch, Outcome::Held) => write_confirmed(page, file, place, id, *batch),
        Report::Decided(batch, outcome) => write_rejected(page, file, place, id, outcome, *batch),
    }
}

// Puts the lines of submissions of a file, the first of which has this place, on a page. An error also where a place is
// no number of 64 bits.
fn put_file(
    page: &mut Page,
    file: u64,
    place: u64,
    txs: &[FullTx],
    reports: &[Report],
) -> Result<(), WriteFault>
    ensures { OnOk result (page.new.text.items
        ≡ page.old.text.items ++ file_lines file place txs.now reports.now) }
{
    match (txs.split_first(), reports.split_first()) {
        (Some((t, others)), Some((report, rest))) => {
            put_report(page, file, place, &tx_id(t), report)?;
            let next = place.checked_add(1).ok_or(WriteFault)?;
            put_file(page, file, next, others, rest)
        }
        _ => Ok(()),
    }
}

// Puts the lines of files, the first of which has this number, on a page.
fn put_files(
    page: &mut Page,
    number: u64,
    files: &[List<FullTx>],
    all: &[List<Report>],
) -> Result<(), WriteFault>
    ensures { OnOk result (page.new.text.items
        ≡ page.old.text.items ++ files_lines number files.now all.now) }
{
    match (files.split_first(), all.split_first()) {
        (Some((file, others)), Some((reports, rest))) => {
            put_file(page, number, 0, file.as_slice(), reports.as_slice())?;
            let next = number.checked_add(1).ok_or(WriteFault)?;
            put_files(page, next, others, rest)
        }
        _ => Ok(()),
    }
}

// Puts the summary on a page.
fn put_summary(page: &mut Page, s: &Summary) -> Result<(), WriteFault>
    ensures { OnOk result (page.new.text.items ≡ page.old.text.items ++ summary_text
        s.now.resumed s.now.batches s.now.confirmed s.now.rejected s.now.refused s.now.unspent) }
{
    write_summary(page, s)
}

/// What `run` prints of files, by the journals of all nodes at entry and at exit. None where memory ran out, a number is
/// none of 64 bits, or the journals do not decide every sound submission.
pub fn run_text<V: Verifier>(
    alloc: Global,
    shape: &Shape,
    verifier: &V,
    entry: &[List<Record>],
    exit: &[List<Record>],
    files: &[List<FullTx>],
) -> Option<Vec<u8>>
    ensures { IfSome result (λ v. IsRunLines shape.now
        (V.verdict_of verifier.now) files.now (journals_in entry.now) (journals_in exit.now) v.items) }
{
    let all = reports_of(alloc, shape, verifier, entry, exit, files)?;
    let unspent = unspent_count(alloc, shape, exit).ok()?;
    let summary = summary_of(shape, entry, exit, all.as_slice(), unspent)?;
    let mut page = Page::new(alloc);
    put_files(&mut page, 1, files, all.as_slice()).ok()?;
    put_summary(&mut page, &summary).ok()?;
    let Page { text, .. } = page;
    Some(text)
}
