// Whole pieces to a sink.
ghost use Rattle.std.specs.Prelude.{◌≡◌, OnOk, OnErr};
ghost use Rattle.outside.specs.Counts.{HasCause};
ghost use Rattle.line_text.specs.Lines.{Prints};

use outside::Sink;
use thiserror::Error;

/// The sink failed. What went out is a front of the text.
#[derive(Clone, Copy, Debug, PartialEq, Eq, Error)]
#[error("the output cannot be written")]
pub struct WriteFault;

/// Writes a whole piece.
pub fn write_all<O: Sink>(out: &mut O, bytes: &[u8]) -> Result<(), WriteFault>
    ensures prints { Prints (O.taken out.old) (O.taken out.new) bytes.now result }
    ensures cause { HasCause (O.count out.old) (O.count out.new) result }
{
    let mut at = 0usize;
    while at < bytes.len() {
        let (_, rest) = bytes.split_at(at);
        match out.write(rest) {
            Ok(n) => at += n,
            Err(_) => return Err(WriteFault),
        }
    }
    Ok(())
}
