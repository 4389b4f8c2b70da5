// Opening a journal into records.
ghost use Rattle.std.specs.Prelude.{◌≡◌, ◌≢◌, ◌-◌, ◌≤◌, ◌<◌, ◌^◌, ◌∷◌, [], ℕ, List as Items, None, Some, length, min, sum_by, slice_get, IfOk, IfErr, IfSome, IsSome, MatchResult, MatchOption};
ghost use Rattle.outside.specs.Counts.{Rose};
ghost use Rattle.outside.specs.Images.{Tells, Leaves};
ghost use Rattle.gate_journal.specs.Shown.{disk_of, gate_of, broken_of};
ghost use Rattle.gate_journal.specs.Rows.{row, rows};
ghost use Rattle.gate_journal.specs.Opening.{IsOpenRefusal, Breaks};
ghost use Rattle.cbdc_model.specs.Room.{size_of};
ghost use Rattle.record_log.specs.Bodies.{body_of};
ghost use Rattle.record_log.specs.Exact.{IsFirstRecord};
ghost use Rattle.record_log.specs.Held.{OpensTo, MayHold};
ghost use Rattle.record_log.specs.LogReading.{SpellRecords, IsUnread, IsNoLog, HoldsBefore};
ghost use Rattle.record_log.specs.Logs.{HoldsAll};

use crate::{RecordFault, RecordLog, read_first, read_record};
use cbdc_types::{Header, NodeOpenFault, Record};
use gate_journal::{Bodies, Journal, OpenFault};
use outside::Disk;
use std::alloc::Global;
use thiserror::Error;

/// Why a disk is no journal of records.
#[derive(Debug, Drop, Error)]
pub enum NoLog {
    /// It failed, there is no whole first record, or memory ran out.
    #[error(transparent)]
    Fault(NodeOpenFault),
    /// There are records, and at this place one that is open and not whole or not in the grammar.
    #[error("the record at byte {at} is damaged, behind {} whole ones", .records.len())]
    Cut {
        header: Header,
        records: Vec<Record>,
        at: u64,
    },
}

// The records that bodies spell, and the place of the first one that spells none.
#[derive(Drop)]
struct Read {
    header: Header,
    records: Vec<Record>,
    cut: Option<u64>,
}

// The header that a first record has.
fn header_of(first: &Record) -> Option<Header>
    ensures { IsFirstRecord first.now → MatchOption result ⊥ (λ h. MayHold h (first.now ∷ [])) }
{
    match first {
        Record::Genesis { header, .. } => Some(*header),
        Record::Start { header } => Some(*header),
        _ => None,
    }
}

// How many bytes a body's row has.
fn row_size(body: &[u8]) -> u64
    ensures { result ≡ min (length (row body.now)) (2 ^ 64 - 1) }
{
    (body.len() as u64).saturating_add(9)
}

// The records behind the first one.
fn later_records(
    alloc: Global,
    header: Header,
    first: Record,
    bodies: &Bodies,
) -> Result<Read, NodeOpenFault>
    requires some { 0 < length bodies.now }
    requires first { MayHold header (first ∷ []) }
    requires spelled { slice_get bodies.now 0 ≡ Some (body_of first) }
    ensures read { IfOk result (λ r. MayHold r.header r.records.items
        × SpellRecords r.header r.records.items r.cut bodies.now) }
    ensures unread { IfErr result (λ e. e ≡ NodeOpenFault.Memory) }
{
    let Ok(mut records) = Vec::with_capacity(alloc, bodies.len()) else {
        return Err(NodeOpenFault::Memory);
    };
    records.push(first).unwrap();
    let mut at = row_size(bodies.body(0));
    'bodies: for i in 1..bodies.len() {
        let body = bodies.body(i);
        match read_record(alloc, body, &header) {
            Ok(record) => match records.push(record) {
                Ok(()) => {}
                Err(_) => return Err(NodeOpenFault::Memory),
            },
            Err(RecordFault::NotARecord) => {
                return Ok(Read {
                    header,
                    records,
                    cut: Some(at),
                });
            }
            Err(RecordFault::Memory) => return Err(NodeOpenFault::Memory),
        }
        at = at.saturating_add(row_size(body));
    }
    Ok(Read {
        header,
        records,
        cut: None,
    })
}

// The records that bodies spell, where the first body is a first record.
fn records_of(alloc: Global, bodies: &Bodies) -> Result<Read, NodeOpenFault>
    ensures read { IfOk result (λ r. MayHold r.header r.records.items
        × SpellRecords r.header r.records.items r.cut bodies.now) }
    ensures unread { IfErr result (λ e. IsUnread bodies.now e) }
{
    if bodies.is_empty() {
        return Err(NodeOpenFault::NotReady);
    }
    match read_first(alloc, bodies.body(0)) {
        Ok(first) => match header_of(&first) {
            Some(header) => later_records(alloc, header, first, bodies),
            None => unreachable!(),
        },
        Err(RecordFault::NotARecord) => Err(NodeOpenFault::NotReady),
        Err(RecordFault::Memory) => Err(NodeOpenFault::Memory),
    }
}

// What is told of a disk whose journal opened, where its bodies are these records.
fn log_of<D: Disk>(
    alloc: Global,
    journal: Journal<D>,
    read: Read,
) -> Result<RecordLog<D>, (D, NoLog)>
    requires whole { broken_of journal ≡ None }
    requires grammar { MayHold read.header read.records.items }
    ensures grammar { IfErr result (λ e. HoldsBefore e.1) }
    ensures log { IfOk result (λ l. (l.journal ≡ journal)
        × (l.header ≡ read.header) × (l.records.items ≡ read.records.items) × (read.cut ≡ None)) }
    ensures cut { IfErr result (λ e. (e.0 ≡ disk_of journal)
        × IfSome read.cut (λ at. e.1 ≡ NoLog.Cut read.header read.records at)) }
    ensures is_cut { IfErr result (λ e. IsSome read.cut) }
{
    let Read {
        header,
        records,
        cut,
    } = read;
    match cut {
        None => Ok(RecordLog {
            journal,
            header,
            records,
            body: Vec::new(alloc),
        }),
        Some(at) => Err((
            journal.into_disk(),
            NoLog::Cut {
                header,
                records,
                at,
            },
        )),
    }
}

// Records that are cut off by one that is none, or else by the damage behind them.
fn cut_at(read: Read, damaged: u64) -> NoLog
    requires { MayHold read.header read.records.items }
    ensures grammar { HoldsBefore result }
    ensures cut { MatchOption read.cut (result ≡ NoLog.Cut read.header read.records damaged)
        (λ at. result ≡ NoLog.Cut read.header read.records at) }
{
    let Read {
        header,
        records,
        cut,
    } = read;
    match cut {
        Some(at) => NoLog::Cut {
            header,
            records,
            at,
        },
        None => NoLog::Cut {
            header,
            records,
            at: damaged,
        },
    }
}

// What is told of a disk that is damaged at a place behind these bodies.
fn cut_of(alloc: Global, before: &Bodies, damaged: u64) -> NoLog
    ensures told { result ≢ NoLog.Fault NodeOpenFault.DiskFault }
    ensures grammar { HoldsBefore result }
    ensures cut { (c : Items ℕ) → Breaks before.now c
        → damaged ≡ length (rows before.now) → 1 ≤ length before.now → IsNoLog c result }
{
    match records_of(alloc, before) {
        Ok(read) => cut_at(read, damaged),
        Err(fault) => NoLog::Fault(fault),
    }
}

// What is told of a disk whose journal did not open.
fn refusal_of(alloc: Global, fault: OpenFault) -> NoLog
    ensures fault { result ≡ NoLog.Fault NodeOpenFault.DiskFault → fault ≡ OpenFault.DiskFault }
    ensures is_fault { fault ≡ OpenFault.DiskFault → result ≡ NoLog.Fault NodeOpenFault.DiskFault }
    ensures is_memory { fault ≡ OpenFault.Memory → result ≡ NoLog.Fault NodeOpenFault.Memory }
    ensures refusal { (c : Items ℕ) → IsOpenRefusal c fault → IsNoLog c result }
    ensures grammar { HoldsBefore result }
{
    match fault {
        OpenFault::Damaged { at, before } => cut_of(alloc, &before, at),
        OpenFault::DiskFault => NoLog::Fault(NodeOpenFault::DiskFault),
        OpenFault::NotReady => NoLog::Fault(NodeOpenFault::NotReady),
        OpenFault::Memory => NoLog::Fault(NodeOpenFault::Memory),
    }
}

/// Opens a disk's journal into records. A refusal hands the disk back.
///
/// Out of memory: the disk comes back as it was read.
pub fn open_records<D: Disk>(alloc: Global, disk: D) -> Result<RecordLog<D>, (D, NoLog)>
    // The content opens to just these records, and a crash leaves nothing else.
    ensures opens { IfOk result
        (λ l. Tells (D.content disk) (λ c. OpensTo l.records.items c × HoldsAll l l.records.items)) }
    ensures grammar { IfOk result (λ l. MayHold l.header l.records.items) }
    ensures ends { IfOk result (λ l. gate_of l.journal ≡ sum_by size_of l.records.items) }
    ensures whole { IfOk result (λ l. broken_of l.journal ≡ None) }

    // Which refusal it is.
    ensures refusal { IfErr result (λ e. Tells (D.content disk) (λ c. IsNoLog c e.1)) }
    ensures before { IfErr result (λ e. HoldsBefore e.1) }
    ensures later { MatchResult result
        (λ l. D.count disk ≤ D.count (disk_of l.journal)) (λ e. D.count disk ≤ D.count e.0) }
    ensures fault { IfErr result (λ e. e.1 ≡ NoLog.Fault NodeOpenFault.DiskFault
        → Rose (D.count disk) (D.count e.0)) }
    ensures limit { MatchResult result
        (λ l. D.limit (disk_of l.journal) ≡ D.limit disk) (λ e. D.limit e.0 ≡ D.limit disk) }

    // Unless the disk failed, what was read is still what is read, and it changes nothing that a crash may leave.
    ensures same { MatchResult result (λ l. D.content (disk_of l.journal) ≡ D.content disk)
        (λ e. e.1 ≢ NoLog.Fault NodeOpenFault.DiskFault → D.content e.0 ≡ D.content disk) }
    ensures leaves { MatchResult result
        (λ l. Leaves D.tells_past D.moment D.images_since D.images disk (disk_of l.journal) (D.images disk))
        (λ e. Leaves D.tells_past D.moment D.images_since D.images disk e.0 (D.images disk)) }
{
    match Journal::open(alloc, disk) {
        Ok((journal, bodies)) => match records_of(alloc, &bodies) {
            Ok(read) => log_of(alloc, journal, read),
            Err(fault) => Err((journal.into_disk(), NoLog::Fault(fault))),
        },
        Err((disk, fault)) => {
            let refused = refusal_of(alloc, fault);
            Err((disk, refused))
        }
    }
}
