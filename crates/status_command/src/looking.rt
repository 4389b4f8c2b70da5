// `status`: what a ledger knows, read from its open nodes.
ghost use Rattle.std.specs.Prelude.{◌≡◌, ℕ, List, Option, map, IfOk};
ghost use Rattle.outside.specs.Counts.{HasCause};
ghost use Rattle.line_text.specs.Lines.{Text, Prints};
ghost use Rattle.command_answers.specs.Promises.{HasKept};
ghost use Rattle.command_answers.specs.Scene.{scene_with};
ghost use Rattle.status_command.specs.Promises.{status_promise, status_needs};
ghost use Rattle.status_command.specs.Texts.{told_lines, status_among};

use cbdc_types::{Answer, Hash, Shape, Status};
use line_text::{WriteFault, write_status};
use outside::{Disk, Rack, Sink};
use rack_ledgers::{Nodes, close_nodes, open_nodes};
use shard_node::ShardNode;
use shard_ranges::shard_of;
use std::alloc::{AllocError, Global};
use std::thread::Threads;

// What the shard of a hash knows of it.
fn status_of<D: Disk>(shape: &Shape, shards: &[ShardNode<D>], hash: &Hash) -> Status
    ensures { result ≡ status_among shape.now shards.now hash.now }
{
    match shards.get(shard_of(hash, shape) as usize) {
        Some(shard) => shard.check_unspent(hash),
        None => Status::Absent,
    }
}

// What is known of each hash.
fn statuses<D: Disk>(
    alloc: Global,
    nodes: &Nodes<D>,
    hashes: &[Hash],
) -> Result<Vec<Status>, AllocError>
    ensures { IfOk result (λ v. v.items
        ≡ map (status_among nodes.now.header.shape nodes.now.shards.items) hashes.now) }
{
    let mut all = Vec::with_capacity(alloc, hashes.len())?;
    'hashes: for hash in hashes {
        all.push(status_of(&nodes.header.shape, &nodes.shards, hash))?;
    }
    Ok(all)
}

// Writes a line for each hash.
fn write_statuses<O: Sink>(
    out: &mut O,
    hashes: &[Hash],
    statuses: &[Status],
) -> Result<(), WriteFault>
    ensures prints { Prints (O.taken out.old) (O.taken out.new) (told_lines hashes.now statuses.now) result }
    ensures cause { HasCause (O.count out.old) (O.count out.new) result }
{
    'hashes: for (hash, status) in hashes.iter().zip(statuses) {
        write_status(out, hash, status)?;
    }
    Ok(())
}

/// Tells what is known of hashes, a line for each in order. No journal changes.
///
/// Where it comes through: a line is printed for each hash, with its status in its shard's journal. Each disk reads as before, and a crash leaves of
/// one that told its content just the journal that was read (clause `did` of `process`).
pub fn status<W: Threads + Sync, R: Rack, O: Sink>(
    rt: &W,
    alloc: Global,
    hashes: &[Hash],
    rack: &mut R,
    out: &mut O,
) -> Answer
where
    R::Disk: Send,
    requires { (n : ℕ) → R.can_take rack.old n }
    ensures kept { (file : Text → Option (List ℕ)) (faults : Text → ℕ)
        → HasKept status_needs (status_promise R.Disk.Disk hashes.now)
        (scene_with file faults R.Rack O.Sink rack.old out.old)
        (scene_with file faults R.Rack O.Sink rack.new out.new)
        (rack.new ≡ rack.old) (Unit {0}) result }
    ensures back { (n : ℕ) → R.can_take rack.new n }
{
    let nodes = match open_nodes(rt, alloc, rack) {
        Ok(nodes) => nodes,
        Err(fault) => return fault,
    };
    let told = statuses(alloc, &nodes, hashes);
    close_nodes(rack, nodes);
    let Ok(told) = told else {
        return Answer::Memory;
    };
    match write_statuses(out, hashes, &told) {
        Ok(()) => Answer::Ok,
        Err(_) => Answer::WriteFault,
    }
}
