// A run of a work with a test of its own over devices in memory.
use crate::few::resume_few;
use cbdc_types::Answer;
use line_text::{status_code, write_fault};
use rack_rows::{Ran, State, ended, gate_of, output_of, rack_of};
use row_records::Told;
use std::sync::Wait;
use std::thread::Threads;

/// `RECORDS`: open batches are brought to their end, unless node 0 has more than so many records.
pub fn play_tested<W: Wait + Threads + Sync>(
    rt: &W,
    state: &State,
    words: &[&str],
    told: &mut Told,
) -> Option<Ran> {
    let alloc = told.alloc;
    let most = told.number_at(words, 0);
    let mut out = output_of(state, told)?;
    let mut rack = rack_of(&state.disks, told)?;
    let gate = gate_of(state, told);
    let answer = resume_few(rt, alloc, &mut rack, most, &gate)
        .err()
        .unwrap_or(Answer::Ok);
    if write_fault(&mut out, &answer, "").is_err() {
        told.refuse("the output is full");
    }
    Some(ended(status_code(&answer), gate, Vec::new(alloc), rack, out, told))
}
