// Making a ledger.
ghost use Rattle.std.specs.Prelude.{◌≡◌, ◌≢◌, ◌+◌, ◌≤◌, ◌<◌, ◌^◌, ℕ, length, IfOk, IfErr, OnOk};
ghost use Rattle.outside.specs.Counts.{Rose};
ghost use Rattle.cbdc_model.specs.Coins.{genesis_tx, genesis_id, genesis_hashes};
ghost use Rattle.cbdc_model.specs.Clean.{value_out};
ghost use Rattle.gate_journal.specs.Formatting.{IsEmptied};
ghost use Rattle.rack_ledgers.specs.Racked.{SameRoom, disks_in};
ghost use Rattle.rack_ledgers.specs.First.{IsBegun};
ghost use Rattle.cbdc_model.specs.Ranges.{node_count};
ghost use Rattle.ledger_init.specs.Made.{first_record_of, HoldsFirst, LeavesBut, MayBeMade, HasPlaceFor, IsUnmade, AreDisksLeft};

use crate::dealing::total_of;
use crate::writing::write_firsts;
use cbdc_types::{Answer, CompactTx, FullTx, Hash, List, Mint, Shape};
use outside::Rack;
use rack_ledgers::{Blank, open_all};
use sentinel::compact;
use std::alloc::{AllocError, Global};

/// A ledger that was made: how many coins were minted, their sum, and the id of the mint.
pub struct Made {
    pub coins: u64,
    pub total: u64,
    pub genesis: Hash,
}

// The transaction that a mint stands for, in its compact form.
fn genesis_of(alloc: Global, mint: Mint) -> Result<CompactTx, AllocError>
    ensures { IfOk result (λ t. (t.id ≡ genesis_id mint) × (t.outputs ≡ genesis_hashes mint)) }
{
    let genesis = FullTx {
        inputs: List::new(alloc),
        outputs: mint,
        witnesses: List::new(alloc),
    };
    compact(alloc, &genesis)
}

// Takes all disks, where they are not in use, and writes their first records.
fn make_nodes<R: Rack>(
    alloc: Global,
    rack: &mut R,
    shape: &Shape,
    mint: Mint,
) -> Result<Hash, Answer>
    requires all { (n : ℕ) → R.can_take rack.old n }
    requires few { length mint ≤ 1000000 }
    requires fits { value_out mint < 2 ^ 64 }
    ensures made { IfOk result (λ id. id ≡ genesis_id mint) }
    ensures was { OnOk result (MayBeMade shape.now mint R.Disk.Disk (R.held rack.old)) }
    ensures written { OnOk result ((n : ℕ) → n < node_count shape.now
        → HoldsFirst R.Disk.Disk (first_record_of shape.now mint n) (R.held rack.old n) (R.held rack.new n)) }
    ensures places { OnOk result ((n : ℕ) → n < node_count shape.now
        → HasPlaceFor shape.now mint R.Disk.Disk (R.held rack.old) n) }
    ensures rooms { OnOk result ((n : ℕ) → n < node_count shape.now
        → SameRoom R.Disk.Disk (R.held rack.old n) (R.held rack.new n)) }
    ensures refusal { IfErr result
        (IsUnmade shape.now mint R.Disk.Disk (R.held rack.old) (R.count rack.old) (R.count rack.new)) }
    ensures left { (n : ℕ) → n < node_count shape.now → LeavesBut R.Disk.Disk (λ before.
        IsBegun before (first_record_of shape.now mint n)) (R.held rack.old n) (R.held rack.new n) }
    ensures lead { IfErr result (λ e. e ≢ Answer.DiskFault 0
        → LeavesBut R.Disk.Disk IsEmptied (R.held rack.old 0) (R.held rack.new 0)) }
    ensures stops { IfErr result (AreDisksLeft shape.now mint R.Disk.Disk
        (disks_in R.Rack rack.old) (disks_in R.Rack rack.new)) }
    ensures others_held { (n : ℕ) → node_count shape.now ≤ n → R.held rack.new n ≡ R.held rack.old n }
    ensures back { (n : ℕ) → R.can_take rack.new n }
    ensures later { (n : ℕ) → R.count rack.old n ≤ R.count rack.new n }
{
    let Ok(genesis) = genesis_of(alloc, mint) else {
        return Err(Answer::Memory);
    };
    let nodes = shape.coordinators() + shape.shards();
    let blanks: Vec<Blank<R::Disk>> = match open_all(alloc, rack, None, 0, nodes, Vec::new(alloc)) {
        Ok(blanks) => blanks,
        Err(fault) => return Err(fault),
    };
    match write_firsts(alloc, rack, shape, &genesis, blanks) {
        Ok(()) => Ok(genesis.id),
        Err(fault) => Err(fault),
    }
}

/// Makes the ledger of a shape that a mint begins, on disks that are not in use: each node's first record, that of the
/// highest node first and that of node 0 last.
///
/// Tested in `ledger_rows` (`init.rows`, `left.rows`).
pub fn make_ledger<R: Rack>(
    alloc: Global,
    rack: &mut R,
    shape: &Shape,
    mint: Mint,
) -> Result<Made, Answer>
    requires all { (n : ℕ) → R.can_take rack.old n }
    requires few { length mint ≤ 1000000 }
    ensures made { IfOk result (λ m. (m.coins ≡ length mint)
        × (m.total ≡ value_out mint) × (m.genesis ≡ genesis_id mint)) }
    ensures was { OnOk result (MayBeMade shape.now mint R.Disk.Disk (R.held rack.old)) }

    // Each disk holds its first record alone, and so does whatever a crash may leave of it.
    ensures written { OnOk result ((n : ℕ) → n < node_count shape.now
        → HoldsFirst R.Disk.Disk (first_record_of shape.now mint n) (R.held rack.old n) (R.held rack.new n)) }

    // Each disk had room for its first record and a closing gate, and there is as much in its place.
    ensures places { OnOk result ((n : ℕ) → n < node_count shape.now
        → HasPlaceFor shape.now mint R.Disk.Disk (R.held rack.old) n) }
    ensures rooms { OnOk result ((n : ℕ) → n < node_count shape.now
        → SameRoom R.Disk.Disk (R.held rack.old n) (R.held rack.new n)) }

    // Which refusal it is.
    ensures refusal { IfErr result
        (IsUnmade shape.now mint R.Disk.Disk (R.held rack.old) (R.count rack.old) (R.count rack.new)) }

    // A crash leaves no first record, what it might have left before, or the new record alone: of node 0 this only where its disk failed.
    ensures left { (n : ℕ) → n < node_count shape.now → LeavesBut R.Disk.Disk (λ before.
        IsBegun before (first_record_of shape.now mint n)) (R.held rack.old n) (R.held rack.new n) }
    ensures lead { IfErr result (λ e. e ≢ Answer.DiskFault 0
        → LeavesBut R.Disk.Disk IsEmptied (R.held rack.old 0) (R.held rack.new 0)) }

    // All disks are as they were read, as where a node is in use or a disk fails as it is taken or opened. Or the writing stopped at a node, which
    // has no room or whose disk fails, or where memory ran out: the disks of those below it are unchanged, and those above it hold their first records.
    ensures stops { IfErr result (AreDisksLeft shape.now mint R.Disk.Disk
        (disks_in R.Rack rack.old) (disks_in R.Rack rack.new)) }

    // Where the sum is too much, the rack is as it was.
    ensures untouched { IfErr result (λ e. (total : ℕ) → e ≡ Answer.TooMuch total → rack.new ≡ rack.old) }

    ensures others_held { (n : ℕ) → node_count shape.now ≤ n → R.held rack.new n ≡ R.held rack.old n }
    ensures back { (n : ℕ) → R.can_take rack.new n }
    ensures later { (n : ℕ) → R.count rack.old n ≤ R.count rack.new n }
{
    let coins = mint.len() as u64;
    let total = total_of(mint.as_slice());
    if total > u128::from(u64::MAX) {
        return Err(Answer::TooMuch { total });
    }
    match make_nodes(alloc, rack, shape, mint) {
        Ok(genesis) => Ok(Made {
            coins,
            total: total as u64,
            genesis,
        }),
        Err(fault) => Err(fault),
    }
}
