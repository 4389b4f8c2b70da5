// The line of each submission.
ghost use Rattle.std.specs.Prelude.{◌≡◌, ◌+◌, ◌≤◌, ◌∷◌, ◌++◌, length, codes, decimal};
ghost use Rattle.hex.specs.Hex.{encode_lower};
ghost use Rattle.outside.specs.Counts.{HasCause};
ghost use Rattle.line_text.specs.Lines.{Prints, confirmed_line, continued, refusal_words, rejected_line, refused_line};

use crate::WriteFault;
use crate::line::{Line, push, push_end, push_first, push_hash, push_number, push_word};
use crate::output::write_all;
use cbdc_types::{BatchId, Hash, Outcome, Refusal};
use outside::Sink;

// The front of a submission's line: file, place and id.
fn submission(file: u64, place: u64, id: &Hash) -> Line
    ensures text { result.items ≡ (decimal file ++ 32 ∷ decimal place) ++ 32 ∷ encode_lower id.now }
    ensures len { length result.items ≤ 106 }
{
    let mut line = Line::new();
    push_first(&mut line, file);
    push_number(&mut line, place);
    push_hash(&mut line, id);
    line
}

/// Appends a lane and a number.
pub(crate) fn push_batch(line: &mut Line, batch: BatchId)
    requires { length line.old.items + 42 ≤ 512 }
    ensures text { line.new.items ≡ (line.old.items ++ 32 ∷ decimal batch.lane) ++ 32 ∷ decimal batch.number }
    ensures len { length line.new.items ≤ length line.old.items + 42 }
{
    push_number(line, u64::from(batch.lane.0));
    push_number(line, batch.number);
}

/// Writes the line of a submission that was confirmed in a batch. Files count from 1, places from 0.
pub fn write_confirmed<O: Sink>(
    out: &mut O,
    file: u64,
    place: u64,
    id: &Hash,
    batch: BatchId,
) -> Result<(), WriteFault>
    ensures prints { Prints
        (O.taken out.old) (O.taken out.new) (confirmed_line file place id.now batch) result }
    ensures cause { HasCause (O.count out.old) (O.count out.new) result }
{
    let mut line = submission(file, place, id);
    push_word(&mut line, b"confirmed");
    push_batch(&mut line, batch);
    push_end(&mut line);
    write_all(out, line.as_slice())
}

// The line of a transaction that was rejected for this hash at this shard.
fn rejection(file: u64, place: u64, id: &Hash, why: &[u8], hash: &Hash, shard: u32) -> Line
    requires { length why.now ≤ 20 }
    ensures text { result.items ≡ ((((((decimal file ++ 32 ∷ decimal place) ++ 32 ∷ encode_lower id.now)
        ++ 32 ∷ codes "rejected") ++ 32 ∷ why.now) ++ 32 ∷ encode_lower hash.now) ++ 32 ∷ decimal shard) }
    ensures len { length result.items ≤ 230 }
{
    let mut line = submission(file, place, id);
    push_word(&mut line, b"rejected");
    push_word(&mut line, why);
    push_hash(&mut line, hash);
    push_number(&mut line, u64::from(shard));
    line
}

/// Writes the line of a submission that was rejected in a batch: an input was missing, or locked. Held
/// is no rejection, and writes nothing.
pub fn write_rejected<O: Sink>(
    out: &mut O,
    file: u64,
    place: u64,
    id: &Hash,
    outcome: &Outcome,
    batch: BatchId,
) -> Result<(), WriteFault>
    ensures prints { Prints
        (O.taken out.old) (O.taken out.new) (rejected_line file place id.now outcome.now batch) result }
    ensures cause { HasCause (O.count out.old) (O.count out.new) result }
{
    match outcome {
        Outcome::Held => write_all(out, &[]),
        Outcome::Missing(shard, hash) => {
            let mut line = rejection(file, place, id, b"missing", hash, *shard);
            push_batch(&mut line, batch);
            push_end(&mut line);
            write_all(out, line.as_slice())
        }
        Outcome::Locked(shard, hash, by) => {
            let mut line = rejection(file, place, id, b"locked", hash, *shard);
            push_batch(&mut line, batch);
            push_word(&mut line, b"by");
            push_batch(&mut line, *by);
            push_end(&mut line);
            write_all(out, line.as_slice())
        }
    }
}

// Appends the words of a refusal and ends the line.
fn push_refusal(line: &mut Line, why: &Refusal)
    requires { length line.old.items ≤ 300 }
    ensures { line.new.items ≡ continued line.old.items (refusal_words why.now) }
{
    match why {
        Refusal::NoInputs => push_word(line, b"no-inputs"),
        Refusal::NoOutputs => push_word(line, b"no-outputs"),
        Refusal::WitnessCount => push_word(line, b"witness-count"),
        Refusal::RepeatedInput(place) => {
            push_word(line, b"repeated-input");
            push_number(line, *place);
        }
        Refusal::ZeroInput(place) => {
            push_word(line, b"zero-input");
            push_number(line, *place);
        }
        Refusal::ZeroOutput(place) => {
            push_word(line, b"zero-output");
            push_number(line, *place);
        }
        Refusal::InputOverflow => push_word(line, b"input-overflow"),
        Refusal::OutputOverflow => push_word(line, b"output-overflow"),
        Refusal::Unbalanced { ins, outs } => {
            push_word(line, b"unbalanced");
            push_number(line, *ins);
            push_number(line, *outs);
        }
        Refusal::BurnedInput(place) => {
            push_word(line, b"burned-input");
            push_number(line, *place);
        }
        Refusal::PermitCount { ins, outs } => {
            push_word(line, b"permit-count");
            push_number(line, *ins);
            push_number(line, *outs);
        }
        Refusal::PermitRaised { was, now } => {
            push_word(line, b"permit-raised");
            push_number(line, *was);
            push_number(line, *now);
        }
        Refusal::BadWitness(place) => {
            push_word(line, b"bad-witness");
            push_number(line, *place);
        }
        Refusal::Unverified(place) => {
            push_word(line, b"unverified");
            push_number(line, *place);
        }
    }
    push_end(line);
}

/// Writes the line of a submission that a sentinel refused.
pub fn write_refused<O: Sink>(
    out: &mut O,
    file: u64,
    place: u64,
    id: &Hash,
    why: &Refusal,
) -> Result<(), WriteFault>
    ensures prints { Prints
        (O.taken out.old) (O.taken out.new) (refused_line file place id.now why.now) result }
    ensures cause { HasCause (O.count out.old) (O.count out.new) result }
{
    let mut line = submission(file, place, id);
    push_word(&mut line, b"refused");
    push_refusal(&mut line, why);
    write_all(out, line.as_slice())
}
