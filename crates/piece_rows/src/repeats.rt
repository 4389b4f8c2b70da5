// Words that are told once and stand there several times.
use row_records::{Told, place_of, rest};

// Appends words so many times.
fn put_times<'a>(all: &mut Vec<&'a str>, words: &[&'a str], times: usize, told: &mut Told) {
    for _ in 0..times {
        told.made(all.extend_from_slice(words));
    }
}

// The words from a place up to the next `end`.
fn group_at<'a, 'b>(words: &'a [&'b str], from: usize) -> &'a [&'b str] {
    let behind = rest(words, from);
    let end = place_of(behind, "end").unwrap_or(behind.len());
    &behind[..end.min(behind.len())]
}

// Appends the words at a place, which may be `repeat N WORD.. end`; the place behind them.
fn put_at<'a>(all: &mut Vec<&'a str>, words: &[&'a str], at: usize, told: &mut Told) -> usize {
    let behind = at.saturating_add(1);
    let word = told.word_at(words, at);
    if word != "repeat" {
        told.push(all, word);
        return behind;
    }
    let times = told.number_at(words, behind) as usize;
    let group = group_at(words, behind.saturating_add(1));
    put_times(all, group, times, told);
    behind.saturating_add(group.len()).saturating_add(2)
}

/// The words of a step, in which `repeat N WORD.. end` is those words N times.
pub fn repeated<'a>(words: &[&'a str], told: &mut Told) -> Vec<&'a str> {
    let mut all = Vec::new(told.alloc);
    let mut at = 0usize;
    for _ in words {
        if at < words.len() {
            at = put_at(&mut all, words, at, told);
        }
    }
    all
}
