// `run`: the transactions of client files, file by file.
ghost use Rattle.std.specs.Prelude.{◌≡◌, ◌⊎◌, ℕ, IfOk, IfErr};
ghost use Rattle.outside.specs.Counts.{HasCause};
ghost use Rattle.run_lines.specs.Reports.{Reports};
ghost use Rattle.command_answers.specs.Causes.{IsReadOrNodeFault};
ghost use Rattle.command_answers.specs.Promises.{HasKept};
ghost use Rattle.run_command.specs.Promises.{run_promise, run_needs};
ghost use Rattle.run_command.specs.Outcomes.{WhyNoRun, WasRun, RunLeaves, RunPlace, RunRose};
ghost use Rattle.command_answers.specs.Scene.{no_output, scene};
ghost use Rattle.rack_ledgers.specs.Racked.{disks_in};
ghost use Rattle.line_text.specs.Lines.{Text};
ghost use Rattle.command_answers.specs.Left.{IsBeforeDisks};

use cbdc_types::{Answer, FullTx, List};
use file_runs::Ran;
use input_files::{Inputs, inputs_in};
use line_text::WriteFault;
use outside::{Gate, Inbox, Rack, Sink};
use rack_runs::run_on;
use requests::{FileWord, RunOptions};
use run_lines::write_report;
use std::alloc::Global;
use std::sync::Wait;
use std::thread::{Threads, join_mut};

// What was read, and the result of running it.
#[derive(Drop)]
struct FilesRan {
    inputs: Inputs,
    ran: Ran,
}

// Reads all files, and runs them over the ledger on the rack.
fn run_all<W: Wait + Threads + Sync, I: Inbox, R: Rack, G: Gate + Sync>(
    rt: &W,
    alloc: Global,
    clients: &[FileWord],
    verdicts: &FileWord,
    options: RunOptions,
    inbox: &mut I,
    rack: &mut R,
    gate: &G,
) -> Result<FilesRan, Answer>
where
    R::Disk: Send,
    requires { (n : ℕ) → R.can_take rack.old n }
    ensures did { IfOk result (λ r. WasRun R.Disk.Disk (I.file inbox.old)
        (disks_in R.Rack rack.old) (disks_in R.Rack rack.new) verdicts.now clients.now r.ran) }
    ensures why { let before = scene I.Inbox R.Rack no_output inbox.old rack.old tt in
        let after = scene I.Inbox R.Rack no_output inbox.new rack.new tt in
        IfErr result (WhyNoRun R.Disk.Disk before after verdicts.now clients.now) }
    ensures fault { IfErr result (IsReadOrNodeFault (RunPlace verdicts.now clients.now)
        (RunRose (I.count inbox.old) (I.count inbox.new) verdicts.now clients.now)) }
    ensures untouched { IfErr result (λ e. IsBeforeDisks e → rack.new ≡ rack.old) }
    ensures left { let before = scene I.Inbox R.Rack no_output inbox.old rack.old tt in
        let after = scene I.Inbox R.Rack no_output inbox.new rack.new tt in
        IfErr result (λ e. (rack.new ≡ rack.old)
        ⊎ RunLeaves R.Disk.Disk before after verdicts.now clients.now e) }
    ensures files { (name : Text) → I.file inbox.new name ≡ I.file inbox.old name }
    ensures back { (n : ℕ) → R.can_take rack.new n }
{
    let inputs = match inputs_in(alloc, inbox, clients, verdicts) {
        Ok(inputs) => inputs,
        Err(fault) => return Err(fault),
    };
    match run_on(
        rt,
        alloc,
        rack,
        &inputs.files,
        &inputs.verdicts,
        options,
        false,
        gate,
    ) {
        Ok(ran) => Ok(FilesRan { inputs, ran }),
        Err(fault) => Err(fault),
    }
}

// Writes the result of a run, while another thread gives back the memory of its client files.
fn write_beside<W: Threads, O: Sink>(
    rt: &W,
    out: &mut O,
    ran: &Ran,
    files: &mut Vec<List<FullTx>>,
) -> Result<(), WriteFault>
    ensures prints { Reports (O.taken out.old) (O.taken out.new) ran.now result }
    ensures cause { HasCause (O.count out.old) (O.count out.new) result }
{
    let (_, written) = join_mut(
        rt,
        &mut || files.clear(),
        &mut || -> Result<(), WriteFault>
            ensures prints { Reports (O.taken out.entry.now) (O.taken out.exit.now) ran.entry.now result }
            ensures cause { HasCause (O.count out.entry.now) (O.count out.exit.now) result }
        { write_report(out, ran) },
    );
    written
}

/// Runs client files, one after another: their transactions are checked by the verdicts and brought through their
/// batches, and their lines printed. All files are read before the rack is taken.
///
/// Where it comes through: the disks, as far as they told, held a ledger, each record of which was caused by those before it; its journals have grown
/// by records that are caused too, within the disks' room. Of a kept one the headline holds, where no hashes clash, and of any kept one a line is
/// printed for each submission. A refused one has the first reason that applies. Each sound one has its one place in one new Prepare, and nothing
/// else has one; it is confirmed exactly where every shard that it concerns held it, else its line names the least shard that did not, with the hash
/// and the cause of that shard's reply. It is confirmed always where its inputs are unspent when its file's wave begins and no other sound one of its
/// file spends them. Then six numbers are printed: batches resumed and newly prepared, submissions confirmed, rejected and refused, hashes unspent
/// (clause `did` of `process`).
pub fn run<W: Wait + Threads + Sync, I: Inbox, R: Rack, O: Sink, G: Gate + Sync>(
    rt: &W,
    alloc: Global,
    clients: &[FileWord],
    verdicts: &FileWord,
    options: RunOptions,
    inbox: &mut I,
    rack: &mut R,
    out: &mut O,
    gate: &G,
) -> Answer
where
    R::Disk: Send,
    requires { (n : ℕ) → R.can_take rack.old n }
    ensures kept { HasKept (run_needs verdicts.now clients.now)
        (run_promise R.Disk.Disk verdicts.now clients.now)
        (scene I.Inbox R.Rack O.Sink inbox.old rack.old out.old)
        (scene I.Inbox R.Rack O.Sink inbox.new rack.new out.new)
        (rack.new ≡ rack.old) (inbox.new ≡ inbox.old) result }
    ensures back { (n : ℕ) → R.can_take rack.new n }
{
    let mut done = match run_all(rt, alloc, clients, verdicts, options, inbox, rack, gate) {
        Ok(done) => done,
        Err(fault) => return fault,
    };
    match write_beside(rt, out, &done.ran, &mut done.inputs.files) {
        Ok(()) => Answer::Ok,
        Err(_) => Answer::WriteFault,
    }
}
