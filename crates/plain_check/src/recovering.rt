// The lines of `recover`.
ghost use Rattle.std.specs.Prelude.{◌≡◌, ◌≤◌, ◌++◌, length, IfSome, OnOk, None, Some};
ghost use Rattle.line_text.specs.Reports.{recovery_text};
ghost use Rattle.plain_check.specs.Journals.{journals_in};
ghost use Rattle.same_records.specs.Slots.{phase_in};
ghost use Rattle.printed_lines.specs.Recoveries.{open_phase, won_in, lost_in, batch_line, lane_line, resumed_below, open_below, resumed_count, IsRecoverText};

use crate::line_unspent::unspent_count;
use crate::page::Page;
use crate::{Phase as Last, journal_at, outcomes_of, slot_of};
use cbdc_types::{BatchId, LaneId, List, Outcome, Phase, Record, Shape};
use line_text::{WriteFault, write_recovery, write_resumed};
use same_records::{home_of, is_won};
use std::alloc::Global;

// What is written down last of a batch of a lane with this last record, where it is open.
fn open_phase(last: Last) -> Option<Phase>
    ensures { result ≡ open_phase (phase_in last) }
{
    match last {
        Last::Idle => None,
        Last::InLock => None,
        Last::InFinish => None,
        Last::InPrepare => Some(Phase::Prepared),
        Last::InCommit => Some(Phase::Committed),
        Last::InDiscard => Some(Phase::Discarded),
    }
}

// How many of the outcomes commit their transactions.
fn won_in(outcomes: &[Outcome]) -> usize
    ensures count { result ≡ won_in outcomes.now }
    ensures bound { result ≤ length outcomes.now }
{
    let Some((outcome, rest)) = outcomes.split_first() else {
        return 0;
    };
    let behind = won_in(rest);
    if is_won(outcome) { behind + 1 } else { behind }
}

// How many of the outcomes do not.
fn lost_in(outcomes: &[Outcome]) -> usize
    ensures count { result ≡ lost_in outcomes.now }
    ensures bound { result ≤ length outcomes.now }
{
    let Some((outcome, rest)) = outcomes.split_first() else {
        return 0;
    };
    let behind = lost_in(rest);
    if is_won(outcome) { behind } else { behind + 1 }
}

// Puts the line of a batch that was open in a phase on a page, by its coordinator's journal at exit.
fn put_batch(
    page: &mut Page,
    journal: &[Record],
    batch: BatchId,
    phase: Option<Phase>,
) -> Result<(), WriteFault>
    ensures { OnOk result (page.new.text.items ≡ page.old.text.items ++ batch_line journal.now batch phase) }
{
    let Some(phase) = phase else {
        return Ok(());
    };
    let outcomes = outcomes_of(journal, &batch);
    write_resumed(
        page,
        batch,
        phase,
        won_in(outcomes) as u64,
        lost_in(outcomes) as u64,
    )
}

// Puts the line of a lane on a page, by its coordinator's journals at entry and at exit.
fn put_lane(page: &mut Page, lane: LaneId, old: &[Record], now: &[Record]) -> Result<(), WriteFault>
    ensures { OnOk result (page.new.text.items ≡ page.old.text.items ++ lane_line lane old.now now.now) }
{
    let slot = slot_of(old, lane);
    let batch = BatchId {
        lane,
        number: slot.number,
    };
    put_batch(page, now, batch, open_phase(slot.phase))
}

// Puts the lines of the lanes below this one on a page.
fn put_below(
    page: &mut Page,
    shape: &Shape,
    entry: &[List<Record>],
    exit: &[List<Record>],
    lanes: u32,
) -> Result<(), WriteFault>
    ensures { OnOk result (page.new.text.items ≡ page.old.text.items
        ++ resumed_below shape.now (journals_in entry.now) (journals_in exit.now) lanes) }
{
    if lanes == 0 {
        return Ok(());
    }
    put_below(page, shape, entry, exit, lanes - 1)?;
    let lane = LaneId(lanes - 1);
    let home = home_of(shape, lane);
    put_lane(
        page,
        lane,
        journal_at(entry, home.0),
        journal_at(exit, home.0),
    )
}

// How many of the lanes below this one are open.
fn open_below(shape: &Shape, entry: &[List<Record>], lanes: u32) -> u32
    ensures count { result ≡ open_below shape.now (journals_in entry.now) lanes }
    ensures bound { result ≤ lanes }
{
    if lanes == 0 {
        return 0;
    }
    let below = open_below(shape, entry, lanes - 1);
    let lane = LaneId(lanes - 1);
    let slot = slot_of(journal_at(entry, home_of(shape, lane).0), lane);
    match open_phase(slot.phase) {
        Some(_) => below + 1,
        None => below,
    }
}

/// How many lanes are open at entry.
pub fn resumed_count(shape: &Shape, entry: &[List<Record>]) -> u64
    ensures { result ≡ resumed_count shape.now (journals_in entry.now) }
{
    u64::from(open_below(shape, entry, shape.lane_count()))
}

// Puts the numbers behind the batches on a page.
fn put_numbers(page: &mut Page, resumed: u64, unspent: u64) -> Result<(), WriteFault>
    ensures { OnOk result (page.new.text.items ≡ page.old.text.items ++ recovery_text resumed unspent) }
{
    write_recovery(page, resumed, unspent)
}

/// What `recover` prints, by the journals of all nodes at entry and at exit. None where memory ran out.
pub fn recover_text(
    alloc: Global,
    shape: &Shape,
    entry: &[List<Record>],
    exit: &[List<Record>],
) -> Option<Vec<u8>>
    ensures { IfSome result
        (λ v. IsRecoverText shape.now (journals_in entry.now) (journals_in exit.now) v.items) }
{
    let unspent = unspent_count(alloc, shape, exit).ok()?;
    let mut page = Page::new(alloc);
    put_below(&mut page, shape, entry, exit, shape.lane_count()).ok()?;
    put_numbers(&mut page, resumed_count(shape, entry), unspent).ok()?;
    let Page { text, .. } = page;
    Some(text)
}
