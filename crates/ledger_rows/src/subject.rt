// What the steps of these rows do: whole runs of the program over disks.
use crate::plain::play_plain;
use crate::play::play;
use crate::tested::play_tested;
use rack_rows::{State, Verb, check, check_run, do_step, verb_for};
use row_records::{Block, Told, rest};
use std::alloc::Global;
use std::sync::Wait;
use std::thread::Threads;

// Runs the program twice over devices that never fail, and checks the text of both and the status of the second.
fn run_plain<W: Wait + Threads + Sync>(
    rt: &W,
    state: &State,
    words: &[&str],
    block: &Block,
    told: &mut Told,
) {
    if let Some(ran) = play_plain(rt, state, words, told) {
        check_run(ran.text(told), ran.status, block, told);
    }
}

// Does a step whose words are for it, with what stands behind it.
fn do_verb<W: Wait + Threads + Sync>(
    rt: &W,
    state: &mut State,
    verb: Verb,
    words: &[&str],
    block: &Block,
    told: &mut Told,
) {
    match verb {
        Verb::Run => {
            let ran = play(rt, state, words, told);
            check(state, ran, block, told);
        }
        Verb::Tested => {
            let ran = play_tested(rt, state, words, told);
            check(state, ran, block, told);
        }
        Verb::Plain => run_plain(rt, state, words, block, told),
        other => do_step(state, other, words, block.text.as_str(), told),
    }
}

/// Does a step, with what stands behind it; where it does not hold, the state keeps why.
pub fn step<W: Wait + Threads + Sync>(
    rt: &W,
    alloc: Global,
    state: &mut State,
    text: &str,
    block: &Block,
) {
    let mut told = Told::new(alloc);
    let words = told.words_of(text);
    if let Some(verb) = verb_for(&words, block, &mut told) {
        do_verb(rt, state, verb, rest(&words, 1), block, &mut told);
    }
    state.wrong = told.end().err();
}
