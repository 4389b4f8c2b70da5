// One run of the program over devices in memory.
use commands::{Done, process};
use line_text::status_code;
use rack_rows::{Ran, State, ended, gate_of, inbox_of, output_of, owned, rack_of};
use row_records::Told;
use std::sync::Wait;
use std::thread::Threads;

/// Runs the program with these words over the disks and files that a row has made.
pub fn play<W: Wait + Threads + Sync>(
    rt: &W,
    state: &State,
    words: &[&str],
    told: &mut Told,
) -> Option<Ran> {
    let alloc = told.alloc;
    let mut out = output_of(state, told)?;
    let rack = rack_of(&state.disks, told)?;
    let words = owned(words, told);
    let mut inbox = inbox_of(state, told);
    let gate = gate_of(state, told);
    let Done { status, rack } = process(rt, alloc, &words, &mut inbox, rack, &mut out, &gate);
    Some(ended(status_code(&status), gate, inbox.names, rack, out, told))
}
