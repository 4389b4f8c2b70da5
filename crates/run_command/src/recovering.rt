// `recover`: open batches are taken to their end.
ghost use Rattle.std.specs.Prelude.{◌≡◌, ◌++◌, ℕ, List, Option, [], ◌∷◌, length};
ghost use Rattle.line_text.specs.Lines.{Text, Prints};
ghost use Rattle.line_text.specs.Reports.{recovery_text};
ghost use Rattle.printed_lines.specs.Recoveries.{won_in};
ghost use Rattle.outside.specs.Counts.{HasCause};
ghost use Rattle.command_answers.specs.Promises.{HasKept};
ghost use Rattle.command_answers.specs.Scene.{scene_with};
ghost use Rattle.run_command.specs.Promises.{recover_promise, recover_needs};
ghost use Rattle.run_command.specs.Texts.{batch_text, batch_texts};

use cbdc_types::{Answer, Outcome};
use file_runs::Ran;
use line_text::{WriteFault, write_recovery, write_resumed};
use outside::{Gate, Rack, Sink};
use rack_runs::recover_on;
use recovery::ResumedBatch;
use std::alloc::Global;
use std::sync::Wait;
use std::thread::Threads;

// 1 for an outcome that confirms its transaction.
fn one_if_held(outcome: &Outcome) -> u64
    ensures { result ≡ won_in (outcome.now ∷ []) }
{
    match outcome {
        Outcome::Held => 1,
        Outcome::Missing(_, _) => 0,
        Outcome::Locked(_, _, _) => 0,
    }
}

// How many of the outcomes confirm their transactions.
fn confirmed_of(outcomes: &[Outcome]) -> u64
    ensures { result ≡ won_in outcomes.now }
{
    let mut confirmed = 0u64;
    'outcomes: for outcome in outcomes {
        confirmed = confirmed.saturating_add(one_if_held(outcome));
    }
    confirmed
}

// Writes the line of a resumed batch.
fn write_batch<O: Sink>(out: &mut O, resumed: &ResumedBatch) -> Result<(), WriteFault>
    ensures prints { Prints (O.taken out.old) (O.taken out.new) (batch_text resumed.now) result }
    ensures cause { HasCause (O.count out.old) (O.count out.new) result }
{
    let outcomes = resumed.outcomes.as_slice();
    let confirmed = confirmed_of(outcomes);
    let rejected = (outcomes.len() as u64).saturating_sub(confirmed);
    write_resumed(out, resumed.batch, resumed.phase, confirmed, rejected)
}

// Writes the line of each resumed batch, and the numbers behind them.
fn write_recovered<O: Sink>(out: &mut O, recovered: &Ran) -> Result<(), WriteFault>
    ensures prints { Prints (O.taken out.old) (O.taken out.new)
        (batch_texts recovered.now.resumed.items
        ++ recovery_text (length recovered.now.resumed.items) recovered.now.unspent) result }
    ensures cause { HasCause (O.count out.old) (O.count out.new) result }
{
    'batches: for resumed in &recovered.resumed {
        write_batch(out, resumed)?;
    }
    write_recovery(out, recovered.resumed.len() as u64, recovered.unspent)
}

/// Takes the batches that an earlier run left open to their end, and tells each with its phase and how many of its
/// transactions were confirmed and rejected.
///
/// Where it comes through: the same as `run`, of the open batches alone: a line for each, in rising order of the lanes, with the phase in which it
/// was, and how many of its transactions are confirmed and rejected. Behind them: how many batches these are and how many hashes are unspent (clause
/// `did` of `process`).
pub fn recover<W: Wait + Threads + Sync, R: Rack, O: Sink, G: Gate + Sync>(
    rt: &W,
    alloc: Global,
    rack: &mut R,
    out: &mut O,
    gate: &G,
) -> Answer
where
    R::Disk: Send,
    requires { (n : ℕ) → R.can_take rack.old n }
    ensures kept { (file : Text → Option (List ℕ)) (faults : Text → ℕ)
        → HasKept recover_needs (recover_promise R.Disk.Disk)
        (scene_with file faults R.Rack O.Sink rack.old out.old)
        (scene_with file faults R.Rack O.Sink rack.new out.new)
        (rack.new ≡ rack.old) (Unit {0}) result }
    ensures back { (n : ℕ) → R.can_take rack.new n }
{
    let recovered = match recover_on(rt, alloc, rack, gate) {
        Ok(recovered) => recovered,
        Err(fault) => return fault,
    };
    match write_recovered(out, &recovered) {
        Ok(()) => Answer::Ok,
        Err(_) => Answer::WriteFault,
    }
}
