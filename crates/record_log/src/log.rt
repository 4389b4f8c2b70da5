// The records of a node, in memory and on its disk.
ghost use Rattle.std.specs.Prelude.{◌≡◌, ◌≢◌, ◌+◌, ◌≤◌, ◌<◌, ◌^◌, ◌++◌, ◌∷◌, [], ℕ, List, None, Some, Err, length, vec_capacity, vec_len, OnOk, OnErr, IfErr, IsErrOf, MatchOption, IsOkUnless};
ghost use Rattle.outside.specs.Counts.{Rose};
ghost use Rattle.outside.specs.Images.{Leaves};
ghost use Rattle.gate_journal.specs.Shown.{disk_of, gate_of, broken_of};
ghost use Rattle.gate_journal.specs.Rows.{OpensWithOrWithout};
ghost use Rattle.gate_journal.specs.Appending.{append_fault};
ghost use Rattle.record_log.specs.Bodies.{body_of};
ghost use Rattle.record_log.specs.Held.{bodies_of};

use crate::write_record;
use cbdc_types::{Header, Record};
use gate_journal::{AppendFault, Journal};
use outside::Disk;
use std::alloc::AllocError;
use thiserror::Error;

/// Why a record was not appended.
#[derive(Clone, Copy, Debug, PartialEq, Eq, Error)]
pub enum LogFault {
    /// An append failed since the journal was opened.
    #[error("an earlier append failed, at fault {since} of the disk")]
    Broken { since: u64 },
    #[error("the disk is full: {used} bytes used, {need} needed, {capacity} in all")]
    Full { used: u64, need: u64, capacity: u64 },
    #[error("the disk failed")]
    DiskFault,
    /// The memory for the record was not taken before.
    #[error("no memory was taken for the record")]
    NoRoom,
}

/// A journal with its header and its records, the newest last.
#[derive(Drop)]
pub struct RecordLog<D: Disk> {
    pub journal: Journal<D>,
    pub header: Header,
    pub records: Vec<Record>,
    pub body: Vec<u8>,
}

impl<D: Disk> RecordLog<D> {
    ghost use Rattle.cbdc_model.specs.Records.{Record};
    ghost use Rattle.record_log.specs.Logs.{HoldsAll, HasLogRoom, KeepsRoom, IsUntouched, log_fault};

    /// Takes the memory for so many further records, whose bodies have at most so many bytes.
    pub fn reserve(&mut self, count: usize, bytes: u64) -> Result<(), AllocError>
        requires { bytes < 2 ^ 62 }
        ensures room { OnOk result (HasLogRoom self.new count bytes) }
        ensures keeps { KeepsRoom self.old self.new }
        ensures untouched { IsUntouched self.old self.new }
        ensures faults { D.count (disk_of self.new.journal) ≡ D.count (disk_of self.old.journal) }
        ensures records { self.new.records.items ≡ self.old.records.items }
        ensures header { self.new.header ≡ self.old.header }
    {
        self.records.reserve(count)?;
        self.body.clear();
        self.body.reserve(bytes as usize)?;
        self.journal.reserve(bytes)
    }

    /// How many bytes of the disk the journal takes.
    pub fn used(&self) -> u64
        ensures { result ≡ gate_of self.now.journal + 1 }
    {
        self.journal.used()
    }

    /// How many bytes the disk may hold.
    pub fn capacity(&self) -> u64
        ensures { result ≡ D.limit (disk_of self.now.journal) }
    {
        self.journal.capacity()
    }

    /// How often the disk has failed.
    pub fn faults(&self) -> u64
        ensures { result ≡ D.count (disk_of self.now.journal) }
    {
        self.journal.faults()
    }

    /// The disk's count of faults behind the append that failed, if one did.
    pub fn is_broken(&self) -> Option<u64>
        ensures { result ≡ broken_of self.now.journal }
    {
        self.journal.is_broken()
    }

    /// Writes a record to the disk, in memory that was taken before. It is kept by `keep`.
    pub fn write(&mut self, next: &Record) -> Result<(), LogFault>
        // Where there is memory, Broken and Full come exactly where it is so, and nothing is written.
        ensures answer { HasLogRoom self.old 1 (length (body_of next.now))
            → MatchOption (append_fault (broken_of self.old.journal) (gate_of self.old.journal + 1)
            (9 + length (body_of next.now)) (D.limit (disk_of self.old.journal)))
            (IsOkUnless result LogFault.DiskFault) (λ fault. result ≡ Err (log_fault fault)) }
        ensures unwritten { IfErr result (λ e. e ≢ LogFault.DiskFault → IsUntouched self.old self.new) }

        // It doesn't give up by itself.
        ensures fault { IsErrOf result LogFault.DiskFault
            → Rose (D.count (disk_of self.old.journal)) (D.count (disk_of self.new.journal)) }
        ensures broken { IsErrOf result LogFault.DiskFault
            → broken_of self.new.journal ≡ Some (D.count (disk_of self.new.journal)) }
        ensures later { D.count (disk_of self.old.journal) ≤ D.count (disk_of self.new.journal) }
        ensures grows { OnOk result ((gate_of self.new.journal ≡ gate_of self.old.journal
            + 9 + length (body_of next.now)) × (broken_of self.new.journal ≡ None)) }
        ensures gate { OnErr result (gate_of self.new.journal ≡ gate_of self.old.journal) }
        ensures limit { D.limit (disk_of self.new.journal) ≡ D.limit (disk_of self.old.journal) }

        // The disk holds the record behind those that it held before.
        ensures written { (records : List Record) → HoldsAll self.old records
            → OnOk result (HoldsAll self.new (records ++ next.now ∷ [])) }

        // A crash at any moment leaves the records from before, with the new one or without.
        ensures leaves { (records : List Record) → HoldsAll self.old records
            → Leaves D.tells_past D.moment D.images_since D.images (disk_of self.old.journal)
            (disk_of self.new.journal) (OpensWithOrWithout (bodies_of records) (body_of next.now)) }

        ensures room { OnOk result (vec_len self.new.records < vec_capacity self.new.records) }
        ensures keeps { KeepsRoom self.old self.new }
        ensures records { self.new.records.items ≡ self.old.records.items }
        ensures header { self.new.header ≡ self.old.header }
    {
        if self.records.len() >= self.records.capacity() {
            return Err(LogFault::NoRoom);
        }
        self.body.clear();
        match write_record(next, &self.header, &mut self.body) {
            Ok(()) => {}
            Err(_) => return Err(LogFault::NoRoom),
        }
        if self.body.len() as u64 > self.journal.reserved() {
            return Err(LogFault::NoRoom);
        }
        match self.journal.append(&self.body) {
            Ok(()) => Ok(()),
            Err(AppendFault::DiskFault) => Err(LogFault::DiskFault),
            Err(AppendFault::Broken { since }) => Err(LogFault::Broken { since }),
            Err(
                AppendFault::Full {
                    used,
                    need,
                    capacity,
                },
            ) => Err(LogFault::Full {
                used,
                need,
                capacity,
            }),
        }
    }

    /// Keeps a record that was written, in memory that was taken before.
    pub fn keep(&mut self, next: Record)
        requires { vec_len self.old.records < vec_capacity self.old.records }
        ensures kept { self.new.records.items ≡ self.old.records.items ++ next ∷ [] }
        ensures room { (count bytes : ℕ) → HasLogRoom self.old (count + 1) bytes
            → HasLogRoom self.new count bytes }
        ensures header { self.new.header ≡ self.old.header }
        ensures journal { self.new.journal ≡ self.old.journal }
    {
        self.records.push(next).unwrap();
    }

    /// Writes a record and keeps it, in memory that was taken before.
    ///
    /// Out of memory: never; `reserve` took what it needs, or the answer is NoRoom.
    pub fn append(&mut self, added: Record) -> Result<(), LogFault>
        ensures kept { OnOk result (self.new.records.items ≡ self.old.records.items ++ added ∷ []) }
        ensures as_before { OnErr result (self.new.records.items ≡ self.old.records.items) }

        // Where there is memory, Broken and Full come exactly where it is so, and nothing is written.
        ensures answer { HasLogRoom self.old 1 (length (body_of added))
            → MatchOption (append_fault (broken_of self.old.journal)
            (gate_of self.old.journal + 1) (9 + length (body_of added)) (D.limit (disk_of self.old.journal)))
            (IsOkUnless result LogFault.DiskFault) (λ fault. result ≡ Err (log_fault fault)) }
        ensures unwritten { IfErr result (λ e. e ≢ LogFault.DiskFault → IsUntouched self.old self.new) }
        ensures fault { IsErrOf result LogFault.DiskFault
            → Rose (D.count (disk_of self.old.journal)) (D.count (disk_of self.new.journal)) }
        ensures broken { IsErrOf result LogFault.DiskFault
            → broken_of self.new.journal ≡ Some (D.count (disk_of self.new.journal)) }
        ensures later { D.count (disk_of self.old.journal) ≤ D.count (disk_of self.new.journal) }
        ensures grows { OnOk result ((gate_of self.new.journal
            ≡ gate_of self.old.journal + 9 + length (body_of added)) × (broken_of self.new.journal ≡ None)) }
        ensures gate { OnErr result (gate_of self.new.journal ≡ gate_of self.old.journal) }
        ensures limit { D.limit (disk_of self.new.journal) ≡ D.limit (disk_of self.old.journal) }

        // The disk holds the record behind those that it held before.
        ensures written { (records : List Record) → HoldsAll self.old records
            → OnOk result (HoldsAll self.new (records ++ added ∷ [])) }

        // A crash at any moment leaves the records from before, with the new one or without.
        ensures leaves { (records : List Record) → HoldsAll self.old records
            → Leaves D.tells_past D.moment D.images_since D.images (disk_of self.old.journal)
            (disk_of self.new.journal) (OpensWithOrWithout (bodies_of records) (body_of added)) }

        // One record's room is taken by it.
        ensures room { (count bytes : ℕ) → HasLogRoom self.old (count + 1) bytes
            → HasLogRoom self.new count bytes }
        ensures header { self.new.header ≡ self.old.header }
    {
        match self.write(&added) {
            Ok(()) => {
                self.keep(added);
                Ok(())
            }
            Err(fault) => Err(fault),
        }
    }

    /// Gives the disk back.
    pub fn into_disk(self) -> D
        ensures { result ≡ disk_of self.journal }
    {
        let RecordLog {
            journal,
            header: _,
            records: _,
            body: _,
        } = self;
        journal.into_disk()
    }
}
