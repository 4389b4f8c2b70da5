// The top call over devices in memory.
ghost use Rattle.std.specs.Prelude.{◌≡◌, ◌≤◌, ◌⊎◌, length};
ghost use Rattle.command_answers.specs.Causes.{IsWell};
ghost use Rattle.command_line.specs.Asked.{WordsAskFor};
ghost use Rattle.command_line.specs.Words.{texts};
ghost use Rattle.requests.specs.declared.Request.{Request as Asked};
ghost use Rattle.commands.specs.InMemory.{IsUnhinderedWhereSteady, memory_scene};
ghost use Rattle.commands.specs.Outcomes.{AskedDid};
ghost use Rattle.mem_devices.specs.PlainRacks.{NoPlainDiskOut, plain};

use crate::top::{Done, process};
use cbdc_types::Answer;
use mem_devices::{MemInbox, PlainRack, PlainSink};
use outside::Gate;
use std::alloc::Global;
use std::sync::Wait;
use std::thread::Threads;

/// The same over files, nodes and an output in memory. A file that is there is read. The rack has a place for each node that a ledger may have, with
/// a disk that never fails, and represents any rack of plain disks for all nodes of a ledger. The output, which takes `N` bytes, fails only where it
/// is full. So none of their counts of faults rises, but the output's at its end.
///
/// The same over files, nodes and an output in memory, of which none fails but an output that is full (`MemInbox`, `PlainRack`, `PlainSink`): where
/// nothing hinders what is asked, with no premise on counts of faults (`IsUnhinderedWhereSteady`), it ends with Ok or Memory, or with WriteFault, where
/// the output is full; what it does is `did` (`complete`, `did`, `back`). Tested in `ledger_rows` (`run.rows`), used by no other program.
pub fn process_in_memory<const N: usize, W: Wait + Threads + Sync, G: Gate + Sync>(
    rt: &W,
    alloc: Global,
    words: &[String],
    inbox: &mut MemInbox,
    rack: PlainRack,
    out: &mut PlainSink<N>,
    gate: &G,
) -> Done<PlainRack>
    requires { NoPlainDiskOut rack }
    ensures back { NoPlainDiskOut result.rack }

    // What was done, as `process` says it.
    ensures did { let before = memory_scene inbox.old.files.items rack out.old.bytes.items in
        let after = memory_scene inbox.new.files.items result.rack out.new.bytes.items in
        IsWell result.status → AskedDid plain before after (texts words.now) result.status }

    // Where nothing hinders what is asked, it was done, unless memory ran out, and its lines were written, unless the output is full.
    ensures complete { let before = memory_scene inbox.old.files.items rack out.old.bytes.items in
        (r : Asked) → WordsAskFor (texts words.now) r → IsUnhinderedWhereSteady plain before r
        → (result.status ≡ Answer.Ok) ⊎ ((result.status ≡ Answer.Memory)
        ⊎ ((result.status ≡ Answer.WriteFault) × (N ≤ length out.new.bytes.items))) }
{
    process(rt, alloc, words, inbox, rack, out, gate)
}
