//! Rows on the real devices, which stand in code, and measures of parts of the program. The program `part_rows` runs both.
//!
//! - Rows: a disk, a rack and an inbox over real files; and what the gate that measures calls finds slow, by a clock that stands in. Each line is
//!   written to the real output.
//! - Measures (`measure`), which say on standard error how long they took. The first word says which: `codec` reads the client files `one` and
//!   `eight` and writes their transactions again; `journal` opens a journal of 100,000 records on a real file, and appends 2,000 to another one;
//!   `table N ..` puts so many hashes (100,000 where no number is given) into a shard's table and into std's hash map, finds them there and takes
//!   them out. A row does a little of each, over files that no ledger has and that it removes: it holds where the transactions are written as they
//!   were read, the journal opens with as many records as were written, and the table gives back what was put into it.
#![tactic(auto)]

mod calls;
mod codec;
mod files;
mod journal;
mod lines;
mod table;

use lines::Lines;
use std::io::{self, ErrorKind};
use std::sync::Wait;

// Does a little of each part.
fn measure_little(rt: &HostRuntime) -> io::Result<()> {
    codec::measure_files(rt)?;
    journal::measure(rt, 100, 10)?;
    journal::remove_files(rt)?;
    table::measure(rt, 100_000)
}

/// Measures the part that the first word names.
pub fn measure(rt: &HostRuntime, words: &[String]) -> io::Result<()> {
    let Some((part, more)) = words.split_first() else {
        return Err(io::Error::from(ErrorKind::InvalidInput));
    };
    match part.as_str() {
        "codec" => codec::measure_files(rt),
        "journal" => journal::measure(rt, 100_000, 2_000),
        "table" => table::measure_each(rt, more),
        _other => Err(io::Error::from(ErrorKind::InvalidInput)),
    }
}

/// Writes a line for each row, with what it came to, and one that counts them. The answer is whether all came to what they should. (`wait` is the
/// leave to wait, which only `main` can lend.)
pub fn tell_rows<W: Wait>(rt: &HostRuntime, wait: &W) -> io::Result<bool> {
    let mut lines = Lines::new(rt);
    lines.tell(
        "row a disk of a real file has the three bytes that were written to it and synced, room for 2^40, and no fault",
        files::keeps_three(rt),
    );
    lines.tell(
        "row a disk that one rack has taken is kept from another one until it is put back, and that is a fault",
        files::is_taken_in_turn(rt),
    );
    lines.tell(
        "row an inbox reads the last two of a file's three bytes, and nothing of a file that is not there",
        files::is_read(rt),
    );
    lines.tell(
        "row four slow calls in a row are slow, three are not, and a quick one ends that: one that another one overlaps is not measured",
        calls::are_slow(wait),
    );
    lines.tell(
        "row parts are measured: transactions are written as they were read, a journal opens, and a table gives back what it was given",
        measure_little(rt).is_ok(),
    );
    lines.end(rt)
}
