// How long a record is in its journal.
ghost use Rattle.std.specs.Prelude.{◌≡◌, length};
ghost use Rattle.cbdc_model.specs.Grammar.{IsInGrammar};
ghost use Rattle.gate_journal.specs.Rows.{row};
ghost use Rattle.record_log.specs.Bodies.{body_of};

use cbdc_types::{Header, Record};
use record_log::size_of_record;

/// How many bytes the row of a record takes that may stand in a journal with this header: its gate, its length and
/// its body. `size_of_record` answers just that.
pub fn bytes_in_the_journal(next: &Record, header: &Header) -> u64
    ensures { IsInGrammar header.now next.now → result ≡ length (row (body_of next.now)) }
{
    // The shape is within its limits.
    let _limit = header.shape.batch();
    size_of_record(next)
}
