// The lines of `status`, `recover` and `audit`.
ghost use Rattle.std.specs.Prelude.{◌≡◌, ◌+◌, ◌≤◌, ◌∷◌, ◌++◌, length, codes};
ghost use Rattle.outside.specs.Counts.{HasCause};
ghost use Rattle.line_text.specs.Lines.{Prints, continued, counted_line};
ghost use Rattle.line_text.specs.Reports.{audit_text, phase_word, recovery_text, resumed_line, status_line, status_words};

use crate::WriteFault;
use crate::line::{Line, push, push_end, push_first_hash, push_number, push_wide, push_word};
use crate::output::write_all;
use crate::submissions::push_batch;
use crate::summary::push_counted;
use cbdc_types::{BatchId, Hash, Phase, Status, Totals};
use outside::Sink;

// Appends what is known of a hash and ends the line.
fn push_status(line: &mut Line, status: &Status)
    requires { length line.old.items ≤ 300 }
    ensures { line.new.items ≡ continued line.old.items (status_words status.now) }
{
    match status {
        Status::Unspent => push_word(line, b"unspent"),
        Status::Locked(batch) => {
            push_word(line, b"locked");
            push_batch(line, *batch);
        }
        Status::Absent => push_word(line, b"absent"),
    }
    push_end(line);
}

/// Writes the line of a hash that was asked for.
pub fn write_status<O: Sink>(out: &mut O, hash: &Hash, status: &Status) -> Result<(), WriteFault>
    ensures prints { Prints (O.taken out.old) (O.taken out.new) (status_line hash.now status.now) result }
    ensures cause { HasCause (O.count out.old) (O.count out.new) result }
{
    let mut line = Line::new();
    push_first_hash(&mut line, hash);
    push_status(&mut line, status);
    write_all(out, line.as_slice())
}

// The word of the phase that a batch was found in.
fn word_of(phase: Phase) -> &'static [u8]
    ensures word { result.now ≡ phase_word phase }
    ensures len { length result.now ≤ 7 }
{
    match phase {
        Phase::Prepared => b"prepare",
        Phase::Committed => b"commit",
        Phase::Discarded => b"discard",
    }
}

/// Writes the line of a batch that was resumed: the phase that it was found in, and how many of its transactions
/// were confirmed and rejected.
pub fn write_resumed<O: Sink>(
    out: &mut O,
    batch: BatchId,
    phase: Phase,
    confirmed: u64,
    rejected: u64,
) -> Result<(), WriteFault>
    ensures prints { Prints
        (O.taken out.old) (O.taken out.new) (resumed_line batch phase confirmed rejected) result }
    ensures cause { HasCause (O.count out.old) (O.count out.new) result }
{
    let mut line = Line::new();
    push(&mut line, b"batch");
    push_batch(&mut line, batch);
    push_word(&mut line, word_of(phase));
    push_word(&mut line, b"confirmed");
    push_number(&mut line, confirmed);
    push_word(&mut line, b"rejected");
    push_number(&mut line, rejected);
    push_end(&mut line);
    write_all(out, line.as_slice())
}

/// Writes the lines that end the text of `recover`: the batches resumed, and the unspent hashes over all shards.
pub fn write_recovery<O: Sink>(out: &mut O, resumed: u64, unspent: u64) -> Result<(), WriteFault>
    ensures prints { Prints (O.taken out.old) (O.taken out.new) (recovery_text resumed unspent) result }
    ensures cause { HasCause (O.count out.old) (O.count out.new) result }
{
    let mut text = Line::new();
    push_counted(&mut text, b"resumed", resumed);
    push_counted(&mut text, b"unspent", unspent);
    write_all(out, text.as_slice())
}

// Appends the line of a name and a sum.
fn push_sum(text: &mut Line, name: &[u8], sum: u128)
    requires { length text.old.items + length name.now + 42 ≤ 512 }
    ensures text { text.new.items ≡ text.old.items ++ counted_line name.now sum }
    ensures len { length text.new.items ≤ length text.old.items + length name.now + 42 }
{
    let mut line = Line::new();
    push(&mut line, name);
    push_wide(&mut line, sum);
    push_end(&mut line);
    push(text, line.as_slice());
}

/// Writes the seven lines of a sound audit. The values are sums, which may pass 2^64 - 1 where the transactions handed in are not sound.
pub fn write_audit<O: Sink>(out: &mut O, totals: &Totals) -> Result<(), WriteFault>
    ensures prints { Prints (O.taken out.old) (O.taken out.new) (audit_text totals.now) result }
    ensures cause { HasCause (O.count out.old) (O.count out.new) result }
{
    let mut text = Line::new();
    push_counted(&mut text, b"coins", totals.coins);
    push_sum(&mut text, b"value", totals.value);
    push_sum(&mut text, b"minted", totals.minted);
    push_counted(&mut text, b"committed", totals.committed);
    push_sum(&mut text, b"money", totals.money);
    push_sum(&mut text, b"issued", totals.issued);
    push_sum(&mut text, b"redeemed", totals.redeemed);
    write_all(out, text.as_slice())
}
