// A node's first record.
ghost use Rattle.std.specs.Prelude.{◌≡◌, ◌≢◌, ◌+◌, ◌≤◌, ◌<◌, ◌^◌, ◌∷◌, [], ℕ, List, length, IfOk, IfErr, OnOk, IsSome, None};
ghost use Rattle.outside.specs.Counts.{Rose};
ghost use Rattle.outside.specs.Images.{Tells, Leaves};
ghost use Rattle.gate_journal.specs.Rows.{OpensWithOrWithout};
ghost use Rattle.gate_journal.specs.Formatting.{IsEmptied};
ghost use Rattle.gate_journal.specs.Stands.{HoldsRows};
ghost use Rattle.gate_journal.specs.Shown.{disk_of, gate_of, broken_of};
ghost use Rattle.record_log.specs.Bodies.{body_of as spelled};
ghost use Rattle.record_log.specs.Held.{HoldsRecords};
ghost use Rattle.rack_ledgers.specs.Places.{IsOpening};
ghost use Rattle.rack_ledgers.specs.First.{IsBegun, IsUnwritten, IsUnstored, IsFirstStored, first_need};

use cbdc_types::{Answer, Header, NodeId, Record};
use gate_journal::{AppendFault, FormatFault, Journal};
use outside::Disk;
use record_log::{size_of_record, write_record};
use std::alloc::{AllocError, Global};

/// A disk that comes back, and whether its first record was written.
pub struct Wrote<D> {
    pub disk: D,
    pub result: Result<(), Answer>,
}

// The bytes of a first record.
fn body_of(alloc: Global, first: &Record, header: &Header) -> Result<Vec<u8>, AllocError>
    ensures { IfOk result (λ v. v.items ≡ spelled first.now) }
{
    let mut body = Vec::with_capacity(alloc, size_of_record(first) as usize)?;
    write_record(first, header, &mut body)?;
    Ok(body)
}

// Appends a body that has room to a journal that has none.
fn append_body<D: Disk>(node: NodeId, journal: &mut Journal<D>, body: &[u8]) -> Result<(), Answer>
    requires whole { broken_of journal.old ≡ None }
    requires empty { gate_of journal.old ≡ 0 }
    requires room { 10 + length body.now ≤ D.limit (disk_of journal.old) }
    ensures written { HoldsRows (D.content (disk_of journal.old)) (D.images (disk_of journal.old)) 0 []
        → OnOk result (HoldsRows (D.content (disk_of journal.new))
        (D.images (disk_of journal.new)) (9 + length body.now) (body.now ∷ [])) }
    ensures fault { IfErr result
        (IsUnstored node (D.count (disk_of journal.old)) (D.count (disk_of journal.new))) }
    ensures untouched { IfErr result (λ e. e ≢ Answer.DiskFault node
        → disk_of journal.new ≡ disk_of journal.old) }
    ensures later { D.count (disk_of journal.old) ≤ D.count (disk_of journal.new) }
    ensures limit { D.limit (disk_of journal.new) ≡ D.limit (disk_of journal.old) }
    ensures leaves { HoldsRows (D.content (disk_of journal.old)) (D.images (disk_of journal.old)) 0 []
        → Leaves D.tells_past D.moment D.images_since D.images
        (disk_of journal.old) (disk_of journal.new) (OpensWithOrWithout [] body.now) }
{
    if body.len() > 1 << 40 {
        return Err(Answer::Memory);
    }
    match journal.reserve(body.len() as u64) {
        Ok(()) => {}
        Err(_) => return Err(Answer::Memory),
    }
    match journal.append(body) {
        Ok(()) => Ok(()),
        Err(AppendFault::DiskFault) => Err(Answer::DiskFault(node)),
        Err(_) => unreachable!(),
    }
}

// Appends a body that has room to a journal that has none, and gives the disk back.
fn append_first<D: Disk>(node: NodeId, journal: Journal<D>, body: &[u8]) -> Wrote<D>
    requires whole { broken_of journal ≡ None }
    requires empty { gate_of journal ≡ 0 }
    requires room { 10 + length body.now ≤ D.limit (disk_of journal) }
    ensures written { HoldsRows (D.content (disk_of journal)) (D.images (disk_of journal)) 0 []
        → OnOk result.result
        (HoldsRows (D.content result.disk) (D.images result.disk) (9 + length body.now) (body.now ∷ [])) }
    ensures fault { IfErr result.result (IsUnstored node (D.count (disk_of journal)) (D.count result.disk)) }
    ensures untouched { IfErr result.result (λ e. e ≢ Answer.DiskFault node → result.disk ≡ disk_of journal) }
    ensures later { D.count (disk_of journal) ≤ D.count result.disk }
    ensures limit { D.limit result.disk ≡ D.limit (disk_of journal) }
    ensures leaves { HoldsRows (D.content (disk_of journal)) (D.images (disk_of journal)) 0 []
        → Leaves D.tells_past D.moment D.images_since D.images
        (disk_of journal) result.disk (OpensWithOrWithout [] body.now) }
{
    let mut journal = journal;
    let result = append_body(node, &mut journal, body);
    Wrote {
        disk: journal.into_disk(),
        result,
    }
}

// Makes a disk that has room for a body a journal of that body alone.
fn write_body<D: Disk>(alloc: Global, node: NodeId, disk: D, body: &[u8]) -> Wrote<D>
    requires { 10 + length body.now ≤ D.limit disk }
    ensures written { Tells (D.content disk) (λ _. OnOk result.result
        (HoldsRows (D.content result.disk) (D.images result.disk) (9 + length body.now) (body.now ∷ []))) }
    ensures fault { IfErr result.result (IsUnstored node (D.count disk) (D.count result.disk)) }
    ensures later { D.count disk ≤ D.count result.disk }
    ensures limit { D.limit result.disk ≡ D.limit disk }
    ensures leaves { IsSome (D.content disk)
        → Leaves D.tells_past D.moment D.images_since D.images disk result.disk
        (IsFirstStored (D.images disk) body.now) }
    ensures unwritten { IfErr result.result (λ e. e ≢ Answer.DiskFault node
        → IsSome (D.content disk) → (c : List ℕ) → D.images result.disk c → IsEmptied (D.images disk) c) }
{
    match Journal::format(alloc, disk) {
        Ok(journal) => append_first(node, journal, body),
        Err((disk, FormatFault::DiskFault)) => Wrote {
            disk,
            result: Err(Answer::DiskFault(node)),
        },
        Err((disk, FormatFault::Memory)) => Wrote {
            disk,
            result: Err(Answer::Memory),
        },
        Err((_, FormatFault::Full)) => unreachable!(),
    }
}

/// Makes a disk a journal and writes its first record. It is full where the record and the gates around it have no room.
pub fn write_first<D: Disk>(alloc: Global, disk: D, first: &Record, header: &Header) -> Wrote<D>
    // The disk holds this record alone, and so does whatever a crash may leave of it.
    ensures written { OnOk result.result (Tells (D.content disk) (λ _. HoldsRecords
        (D.content result.disk) (D.images result.disk) (9 + length (spelled first.now)) (first.now ∷ []))) }
    ensures room { OnOk result.result (first_need first.now ≤ D.limit disk) }

    // Which refusal it is.
    ensures refusal { IfErr result.result (IsUnwritten header.now.node (D.limit disk) first.now) }
    ensures fault { IfErr result.result (IsOpening header.now.node (D.count disk) (D.count result.disk)) }
    ensures later { D.count disk ≤ D.count result.disk }
    ensures limit { D.limit result.disk ≡ D.limit disk }

    // A crash at any moment leaves no first record, what it might have left before, or this record alone: this only at Ok or where the disk failed.
    ensures leaves { IsSome (D.content disk)
        → Leaves D.tells_past D.moment D.images_since D.images disk result.disk
        (IsBegun (D.images disk) first.now) }
    ensures unwritten { IfErr result.result (λ e. e ≢ Answer.DiskFault header.now.node
        → IsSome (D.content disk) → (c : List ℕ) → D.images result.disk c → IsEmptied (D.images disk) c) }
{
    let node = header.node;
    let Ok(body) = body_of(alloc, first, header) else {
        return Wrote {
            disk,
            result: Err(Answer::Memory),
        };
    };
    let need = (body.len() as u64).saturating_add(10);
    let capacity = disk.capacity();
    if need > capacity {
        return Wrote {
            disk,
            result: Err(Answer::Full {
                node,
                used: 0,
                need,
                capacity,
            }),
        };
    }
    write_body(alloc, node, disk, &body)
}
