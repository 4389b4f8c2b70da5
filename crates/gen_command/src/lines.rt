// The text of a workload.
ghost use Rattle.std.specs.Prelude.{◌≡◌, ◌++◌, codes};
ghost use Rattle.outside.specs.Counts.{HasCause};
ghost use Rattle.line_text.specs.Lines.{Prints, counted_line};
ghost use Rattle.line_text.specs.Reports.{audit_text};
ghost use Rattle.run_lines.specs.Told.{IsCountable, numbers_of};
ghost use Rattle.gen_command.specs.Watched.{cut_text};

use arrayvec::ArrayVec;
use cbdc_types::Totals;
use file_runs::Ran;
use itoa::Buffer;
use line_text::{WriteFault, write_all};
use outside::Sink;
use run_lines::write_generated;

// The line of the value of a cut.
fn cut_line(value: u128) -> ArrayVec<u8, 64>
    ensures { result.items ≡ counted_line (codes "cut value") value }
{
    let mut line: ArrayVec<u8, 64> = ArrayVec::new();
    let mut digits = Buffer::new();
    let _ = line.try_extend_from_slice(b"cut value");
    line.push(b' ');
    let _ = line.try_extend_from_slice(digits.format(value).as_bytes());
    line.push(b'\n');
    line
}

// Writes it, if there is one.
fn write_cut<O: Sink>(out: &mut O, cut: Option<u128>) -> Result<(), WriteFault>
    ensures prints { Prints (O.taken out.old) (O.taken out.new) (cut_text cut) result }
    ensures cause { HasCause (O.count out.old) (O.count out.new) result }
{
    match cut {
        Some(value) => write_all(out, cut_line(value).as_slice()),
        None => write_all(out, b""),
    }
}

/// Writes the numbers that end the text of a run, those of an audit behind them, and the value of a cut if there is one.
pub(crate) fn write_workload<O: Sink>(
    out: &mut O,
    ran: &Ran,
    totals: &Totals,
    cut: Option<u128>,
) -> Result<(), WriteFault>
    ensures prints { IsCountable ran.now → Prints (O.taken out.old) (O.taken out.new)
        ((numbers_of ran.now ++ audit_text totals.now) ++ cut_text cut) result }
    ensures cause { HasCause (O.count out.old) (O.count out.new) result }
{
    write_generated(out, ran, totals)?;
    write_cut(out, cut)
}
