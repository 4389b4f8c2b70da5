// Writing the first record of each node.
ghost use Rattle.std.specs.Prelude.{◌≡◌, ◌≢◌, ◌+◌, ◌≤◌, ◌<◌, ◌^◌, ℕ, length, IfOk, IfErr, OnOk};
ghost use Rattle.cbdc_model.specs.World.{first_record};
ghost use Rattle.rack_ledgers.specs.Places.{EachFrom, MayReturn, IsOpening};
ghost use Rattle.gate_journal.specs.Formatting.{IsEmptied};
ghost use Rattle.rack_ledgers.specs.Racked.{OfTold};
ghost use Rattle.rack_ledgers.specs.First.{IsBegun, IsUnwritten, first_need};
ghost use Rattle.ledger_init.specs.Places.{minted_by, HoldsOf, LeavesOf, IsFirstWritten, IsStopped, WritingStopsAt};

use crate::dealing::hashes_on;
use cbdc_types::{Answer, CompactTx, Header, NodeId, Record, Shape};
use outside::{Disk, Rack};
use rack_ledgers::{Blank, Wrote, close_all, write_first};
use std::alloc::{AllocError, Global};

// The first record of a node.
fn first_of(
    alloc: Global,
    shape: &Shape,
    genesis: &CompactTx,
    node: NodeId,
) -> Result<Record, AllocError>
    ensures { IfOk result (λ r. r ≡ first_record shape.now (minted_by genesis.now) node) }
{
    let header = Header {
        node,
        shape: *shape,
        genesis: genesis.id,
    };
    let coordinators = shape.coordinators();
    if node.0 < coordinators {
        return Ok(Record::Start { header });
    }
    let hashes = hashes_on(
        alloc,
        genesis.outputs.as_slice(),
        shape,
        node.0 - coordinators,
    )?;
    Ok(Record::Genesis { header, hashes })
}

// Writes a node's first record on its disk.
fn write_disk<D: Disk>(
    alloc: Global,
    shape: &Shape,
    genesis: &CompactTx,
    node: NodeId,
    disk: D,
) -> Wrote<D>
    ensures written { OnOk result.result
        (HoldsOf D.Disk (first_record shape.now (minted_by genesis.now) node) disk result.disk) }
    ensures begun { LeavesOf D.Disk
        (λ before. IsBegun before (first_record shape.now (minted_by genesis.now) node)) disk result.disk }
    ensures emptied { IfErr result.result (λ e. e ≢ Answer.DiskFault node
        → LeavesOf D.Disk IsEmptied disk result.disk) }
    ensures room { OnOk result.result (first_need (first_record shape.now (minted_by genesis.now) node)
        ≤ D.limit disk) }
    ensures refusal { IfErr result.result
        (IsUnwritten node (D.limit disk) (first_record shape.now (minted_by genesis.now) node)) }
    ensures fault { IfErr result.result (IsOpening node (D.count disk) (D.count result.disk)) }
    ensures later { D.count disk ≤ D.count result.disk }
    ensures limit { D.limit result.disk ≡ D.limit disk }
{
    let Ok(first) = first_of(alloc, shape, genesis, node) else {
        return Wrote {
            disk,
            result: Err(Answer::Memory),
        };
    };
    let header = Header {
        node,
        shape: *shape,
        genesis: genesis.id,
    };
    write_first(alloc, disk, &first, &header)
}

// Writes a node's first record on its disk and puts it back.
fn write_at<R: Rack>(
    alloc: Global,
    rack: &mut R,
    shape: &Shape,
    genesis: &CompactTx,
    node: NodeId,
    disk: R::Disk,
) -> Result<(), Answer>
    requires { (k : ℕ) → R.Disk.count disk ≤ k → R.can_put rack.old node k }
    ensures done { OnOk result (IsFirstWritten R.Disk.Disk
        (first_record shape.now (minted_by genesis.now) node) disk (R.held rack.new node)) }
    ensures stopped { IfErr result (λ e. IsStopped R.Disk.Disk node (first_record shape.now
        (minted_by genesis.now) node) e (R.count rack.new node) disk (R.held rack.new node)) }
    ensures others_held { (n : ℕ) → n ≢ node → R.held rack.new n ≡ R.held rack.old n }
    ensures back { R.can_take rack.new node }
    ensures others_in { (n : ℕ) → n ≢ node → R.can_take rack.old n → R.can_take rack.new n }
    ensures others_out { (n k : ℕ) → n ≢ node → R.can_put rack.old n k → R.can_put rack.new n k }
    ensures later { (n : ℕ) → R.count rack.old n ≤ R.count rack.new n }
{
    let Wrote { disk, result } = write_disk(alloc, shape, genesis, node, disk);
    rack.put(node, disk);
    result
}

/// Writes the first records, that of the highest node first and that of node 0 last, and puts all disks back.
pub(crate) fn write_firsts<R: Rack>(
    alloc: Global,
    rack: &mut R,
    shape: &Shape,
    genesis: &CompactTx,
    blanks: Vec<Blank<R::Disk>>,
) -> Result<(), Answer>
    requires few { length blanks.items < 2 ^ 32 }
    requires out { EachFrom (MayReturn (λ b. R.Disk.count b.disk) (R.can_put rack.old)) 0 blanks.items }
    ensures done { OnOk result (EachFrom (λ n b. IsFirstWritten R.Disk.Disk
        (first_record shape.now (minted_by genesis.now) n) b.disk (R.held rack.new n)) 0 blanks.items) }
    ensures stopped { IfErr result (λ e. WritingStopsAt (λ n b. OfTold (R.held rack.new n) (λ now.
        now ≡ b.disk)) (λ n b. IsStopped R.Disk.Disk n (first_record shape.now (minted_by genesis.now) n) e
        (R.count rack.new n) b.disk (R.held rack.new n)) (λ n b. IsFirstWritten R.Disk.Disk
        (first_record shape.now (minted_by genesis.now) n) b.disk (R.held rack.new n)) blanks.items) }
    ensures others_held { (n : ℕ) → length blanks.items ≤ n → R.held rack.new n ≡ R.held rack.old n }
    ensures back { (n : ℕ) → n < length blanks.items → R.can_take rack.new n }
    ensures others_in { (n : ℕ) → length blanks.items ≤ n → R.can_take rack.old n → R.can_take rack.new n }
    ensures later { (n : ℕ) → R.count rack.old n ≤ R.count rack.new n }
{
    let mut blanks = blanks;
    'blanks: while let Some(blank) = blanks.pop() {
        let node = NodeId(blanks.len() as u32);
        let Blank { node: _, disk } = blank;
        match write_at(alloc, rack, shape, genesis, node, disk) {
            Ok(()) => {}
            Err(fault) => {
                close_all(rack, 0, blanks);
                return Err(fault);
            }
        }
    }
    blanks.destroy_empty();
    Ok(())
}
