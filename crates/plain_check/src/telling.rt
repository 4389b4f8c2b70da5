// The lines of `init`, `status` and `audit`, and those of faults.
ghost use Rattle.std.specs.Prelude.{◌≡◌, ◌+◌, ◌*◌, ◌-◌, ◌++◌, IfSome, OnOk};
ghost use Rattle.cbdc_model.specs.Clean.{value_out};
ghost use Rattle.line_text.specs.Faults.{fault_text};
ghost use Rattle.line_text.specs.Lines.{init_text as the_init_text};
ghost use Rattle.line_text.specs.Reports.{status_line};
ghost use Rattle.plain_check.specs.Journals.{journals_in};
ghost use Rattle.printed_lines.specs.Reports.{init_lines, status_at, status_lines, verdict_lines};
ghost use Rattle.line_text.specs.Reports.{audit_text};

use crate::page::Page;
use crate::{journal_at, status_of};
use audit::Verdict;
use cbdc_types::{Answer, Hash, List, Output, Record, Shape, Totals};
use line_text::{WriteFault, write_audit, write_fault, write_init, write_status};
use sentinel::genesis_id;
use shard_ranges::shard_of;
use std::alloc::{AllocError, Global};

// What outputs come to, where that is a number of 64 bits.
fn value_out(outputs: &[Output]) -> Option<u64>
    ensures { IfSome result (λ v. v ≡ value_out outputs.now) }
{
    let Some((o, rest)) = outputs.split_first() else {
        return Some(0);
    };
    value_out(rest)?.checked_add(o.value)
}

// Puts the lines of a mint on a page.
fn put_init(page: &mut Page, coins: u64, minted: u64, genesis: &Hash) -> Result<(), WriteFault>
    ensures { OnOk result (page.new.text.items
        ≡ page.old.text.items ++ the_init_text coins minted genesis.now) }
{
    write_init(page, coins, minted, genesis)
}

/// What `init` prints of a mint, whose sum is a number of 64 bits. None where memory ran out, or the sum is greater.
pub fn init_text(alloc: Global, mint: &[Output]) -> Option<Vec<u8>>
    ensures { IfSome result (λ v. v.items ≡ init_lines mint.now) }
{
    let minted = value_out(mint)?;
    let genesis = genesis_id(alloc, mint).ok()?;
    let mut page = Page::new(alloc);
    put_init(&mut page, mint.len() as u64, minted, &genesis).ok()?;
    let Page { text, .. } = page;
    Some(text)
}

// Puts the line of a hash on a page.
fn put_status(
    page: &mut Page,
    shape: &Shape,
    journals: &[List<Record>],
    hash: &Hash,
) -> Result<(), WriteFault>
    ensures { OnOk result (page.new.text.items ≡ page.old.text.items
        ++ status_line hash.now (status_at shape.now (journals_in journals.now) hash.now)) }
{
    let own = journal_at(journals, shape.coordinators() + shard_of(hash, shape));
    let status = status_of(own, hash);
    write_status(page, hash, &status)
}

// Puts the lines of hashes on a page.
fn put_statuses(
    page: &mut Page,
    shape: &Shape,
    journals: &[List<Record>],
    hashes: &[Hash],
) -> Result<(), WriteFault>
    ensures { OnOk result (page.new.text.items
        ≡ page.old.text.items ++ status_lines shape.now (journals_in journals.now) hashes.now) }
{
    let Some((hash, rest)) = hashes.split_first() else {
        return Ok(());
    };
    put_status(page, shape, journals, hash)?;
    put_statuses(page, shape, journals, rest)
}

/// What `status` prints of hashes, by the journals of all nodes. None where memory ran out.
pub fn status_text(
    alloc: Global,
    shape: &Shape,
    journals: &[List<Record>],
    hashes: &[Hash],
) -> Option<Vec<u8>>
    ensures { IfSome result (λ v. v.items ≡ status_lines shape.now (journals_in journals.now) hashes.now) }
{
    let mut page = Page::new(alloc);
    put_statuses(&mut page, shape, journals, hashes).ok()?;
    let Page { text, .. } = page;
    Some(text)
}

// Puts the line of an answer on a page; the name is that of its file.
fn put_fault(page: &mut Page, answer: &Answer, name: &str) -> Result<(), WriteFault>
    ensures { OnOk result (page.new.text.items ≡ page.old.text.items ++ fault_text answer.now name.now) }
{
    write_fault(page, answer, name)
}

/// What is printed of an answer; the name is that of its file. None where memory ran out.
pub fn fault_line(alloc: Global, answer: &Answer, name: &str) -> Option<Vec<u8>>
    ensures { IfSome result (λ v. v.items ≡ fault_text answer.now name.now) }
{
    let mut page = Page::new(alloc);
    put_fault(&mut page, answer, name).ok()?;
    let Page { text, .. } = page;
    Some(text)
}

// Puts the lines of an audit on a page.
fn put_totals(page: &mut Page, totals: &Totals) -> Result<(), WriteFault>
    ensures { OnOk result (page.new.text.items ≡ page.old.text.items ++ audit_text totals.now) }
{
    write_audit(page, totals)
}

/// What `audit` prints of a verdict. None where memory ran out.
pub fn verdict_text(alloc: Global, verdict: &Verdict) -> Option<Vec<u8>>
    ensures { IfSome result (λ v. v.items ≡ verdict_lines verdict.now) }
{
    let mut page = Page::new(alloc);
    match verdict {
        Verdict::Sound(totals) => put_totals(&mut page, totals).ok()?,
        Verdict::Unsound { place, kind } => {
            let answer = Answer::Unsound {
                place: *place,
                kind: *kind,
            };
            put_fault(&mut page, &answer, "").ok()?
        }
    }
    let Page { text, .. } = page;
    Some(text)
}
