// Two runs of the program over devices in memory that never fail.
use commands::{Done, process_in_memory};
use line_text::status_code;
use mem_devices::{PlainRack, PlainSink};
use outside::OpenGate;
use rack_rows::{ROOM, State, count_at, files_of, owned, text_in};
use row_records::{Told, rest, words_around};
use std::sync::Wait;
use std::thread::Threads;

// How many nodes a ledger may have.
const PLACES: usize = 80;

/// What two runs printed, and the status of the second.
#[derive(Drop)]
pub struct PlainRuns {
    pub status: u64,
    out: PlainSink<ROOM>,
}

impl PlainRuns {
    /// What was printed.
    pub fn text(&self, told: &mut Told) -> &str {
        text_in(self.out.taken(), told)
    }
}

/// `NODES CAPACITY WORDS.. / WORDS..`: the program with the first words and then with the second, over so many empty disks.
pub fn play_plain<W: Wait + Threads + Sync>(
    rt: &W,
    state: &State,
    words: &[&str],
    told: &mut Told,
) -> Option<PlainRuns> {
    let alloc = told.alloc;
    let nodes = count_at(words, 0, told).min(PLACES) as u32;
    let capacity = count_at(words, 1, told);
    let mut out = told.made(PlainSink::new(alloc))?;
    let rack = match PlainRack::new(alloc, nodes, capacity) {
        Ok(rack) => rack,
        Err(_) => {
            told.no_memory();
            return None;
        }
    };
    let (first, second) = words_around(rest(words, 2), "/");
    let (first, second) = (owned(first, told), owned(second, told));
    let mut inbox = files_of(state, told);
    let Done { status: _, rack } = process_in_memory(
        rt, alloc, &first, &mut inbox, rack, &mut out, &OpenGate,
    );
    let Done { status, rack: _ } = process_in_memory(
        rt, alloc, &second, &mut inbox, rack, &mut out, &OpenGate,
    );
    Some(PlainRuns {
        status: u64::from(status_code(&status)),
        out,
    })
}
