// Texts of names with numbers.
ghost use Rattle.std.specs.Prelude.{◌≡◌, ◌+◌, ◌≤◌, ◌∷◌, [], ◌++◌, length, codes};
ghost use Rattle.hex.specs.Hex.{encode_lower};
ghost use Rattle.outside.specs.Counts.{HasCause};
ghost use Rattle.line_text.specs.Lines.{Prints, counted_line, line, init_text, summary_text};

use crate::WriteFault;
use crate::line::{Line, push, push_end, push_hash, push_number};
use crate::output::write_all;
use cbdc_types::Hash;
use outside::Sink;

/// What a run did. The counts of submissions are of confirmed, rejected and refused ones.
#[derive(Clone, Copy, Debug, PartialEq, Eq)]
pub struct Summary {
    /// The batches that were finished first.
    pub resumed: u64,
    /// The new batches.
    pub batches: u64,
    pub confirmed: u64,
    pub rejected: u64,
    pub refused: u64,
    /// The unspent hashes over all shards.
    pub unspent: u64,
}

/// Appends the line of a name and a number.
pub(crate) fn push_counted(text: &mut Line, name: &[u8], n: u64)
    requires { length text.old.items + length name.now + 22 ≤ 512 }
    ensures text { text.new.items ≡ text.old.items ++ counted_line name.now n }
    ensures len { length text.new.items ≤ length text.old.items + length name.now + 22 }
{
    let mut line = Line::new();
    push(&mut line, name);
    push_number(&mut line, n);
    push_end(&mut line);
    push(text, line.as_slice());
}

// Appends the line of a mint's id.
fn push_genesis(text: &mut Line, genesis: &Hash)
    requires { length text.old.items ≤ 300 }
    ensures { text.new.items ≡ text.old.items ++ line (codes "genesis" ∷ encode_lower genesis.now ∷ []) }
{
    let mut line = Line::new();
    push(&mut line, b"genesis");
    push_hash(&mut line, genesis);
    push_end(&mut line);
    push(text, line.as_slice());
}

/// Writes what `init` prints: how many coins were minted, their sum, and the id of the mint.
pub fn write_init<O: Sink>(
    out: &mut O,
    coins: u64,
    minted: u64,
    genesis: &Hash,
) -> Result<(), WriteFault>
    ensures prints { Prints (O.taken out.old) (O.taken out.new) (init_text coins minted genesis.now) result }
    ensures cause { HasCause (O.count out.old) (O.count out.new) result }
{
    let mut text = Line::new();
    push_counted(&mut text, b"coins", coins);
    push_counted(&mut text, b"minted", minted);
    push_genesis(&mut text, genesis);
    write_all(out, text.as_slice())
}

/// Writes the six lines that end the text of a run.
pub fn write_summary<O: Sink>(out: &mut O, summary: &Summary) -> Result<(), WriteFault>
    ensures prints { Prints
        (O.taken out.old) (O.taken out.new) (summary_text summary.now.resumed summary.now.batches
        summary.now.confirmed summary.now.rejected summary.now.refused summary.now.unspent) result }
    ensures cause { HasCause (O.count out.old) (O.count out.new) result }
{
    let mut text = Line::new();
    push_counted(&mut text, b"resumed", summary.resumed);
    push_counted(&mut text, b"batches", summary.batches);
    push_counted(&mut text, b"confirmed", summary.confirmed);
    push_counted(&mut text, b"rejected", summary.rejected);
    push_counted(&mut text, b"refused", summary.refused);
    push_counted(&mut text, b"unspent", summary.unspent);
    write_all(out, text.as_slice())
}
