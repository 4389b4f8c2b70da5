// Rows: their steps, their cases, and the files that they stand in.
use crate::names::Names;
use crate::rest;
use crate::script::{Block, is_of_block, sign_of, step_at};
use crate::told::Told;
use crate::wrong::{Wrong, is_difference, tell};
use std::alloc::Global;
use std::rt::{Env, Files};
use std::{env, fs, io};

/// What the steps of rows do.
pub trait Subject: Sized {
    /// One that has made nothing.
    fn new(alloc: Global) -> Self;

    /// The hashes by name.
    fn hashes(&self) -> &Names<String>;

    /// What was made so far stands for every row.
    fn mark(&mut self);

    /// Begins a row: what was made behind the mark is forgotten.
    fn begin(&mut self);

    /// What was wrong with the last step, if it did not hold; nothing from then on.
    fn take_wrong(&mut self) -> Option<Wrong>;
}

// Does the step of the first of these lines, with what stands behind it; what is wrong with it, where it does not hold.
fn wrong_of<S: Subject, F: Fn(&mut S, &str, &Block)>(
    step: &F,
    subject: &mut S,
    alloc: Global,
    lines: &[&str],
    case: &[String],
) -> Option<Wrong>
    requires able { (s t b : _) → F.pre step.now s t b }
{
    let mut told = Told::new(alloc);
    let own = step_at(lines, subject.hashes(), case, &mut told);
    match told.end() {
        Ok(()) => {
            step(subject, own.text.as_str(), &own.block);
            subject.take_wrong()
        }
        Err(wrong) => Some(wrong),
    }
}

// Whether a line is no step.
fn is_no_step(line: &str) -> bool {
    match sign_of(line) {
        b'#' => true,
        b'c' => line.trim().starts_with("case "),
        _ => is_of_block(line),
    }
}

// A row, or what stands before the first one.
#[derive(Clone, Copy)]
struct Part<'a, 'b> {
    // Its sentence; nothing before the first row.
    name: &'b str,
    // What stands behind it, and the number of the first of these lines.
    lines: &'a [&'b str],
    first: usize,
}

// Whether a row holds where in each case a step comes to something else than it says.
fn should_differ(part: &Part) -> bool {
    part.name.starts_with("differs ")
}

// Whether a step that does not hold is what a row says; else it is told.
fn is_wanted(part: &Part, at: usize, wrong: &Wrong, report: &mut Told) -> bool {
    if should_differ(part) && is_difference(wrong) {
        return true;
    }
    report.put("    line ");
    report.put_shown(&part.first.saturating_add(at));
    report.put(": ");
    report.put(part.lines.get(at).unwrap_or(&""));
    report.line();
    tell(report, wrong);
    false
}

// Does the steps of a row in a case, up to the first that does not hold; whether they came to what the row says.
fn steps<S: Subject, F: Fn(&mut S, &str, &Block)>(
    step: &F,
    subject: &mut S,
    part: &Part,
    case: &[String],
    report: &mut Told,
) -> bool
    requires able { (s t b : _) → F.pre step.now s t b }
{
    let lines = part.lines;
    for at in 0..lines.len() {
        if is_no_step(lines[at]) {
            continue;
        }
        if let Some(wrong) = wrong_of(step, subject, report.alloc, &lines[at..], case) {
            return is_wanted(part, at, &wrong, report);
        }
    }
    !should_differ(part)
}

// Puts a copy of a word behind others.
fn put_copy(all: &mut Vec<String>, word: &str, told: &mut Told) {
    let made = String::from_str(told.alloc, word);
    if let Some(own) = told.made(made) {
        told.push(all, own);
    }
}

// The words of a case: what stands between its semicolons, or where it has none each word.
fn words_of(text: &str, told: &mut Told) -> Vec<String> {
    let mut all = Vec::new(told.alloc);
    if text.contains(';') {
        for word in text.split(';') {
            put_copy(&mut all, word.trim(), told);
        }
    } else {
        for word in text.split_whitespace() {
            put_copy(&mut all, word, told);
        }
    }
    all
}

// The numbers of `FIRST..LAST`, both ends taken in.
fn range_of(word: &str) -> Option<(u64, u64)> {
    let (first, last) = word.split_once("..")?;
    match (first.parse::<u64>(), last.parse::<u64>()) {
        (Ok(first), Ok(last)) => Some((first, last)),
        _ => None,
    }
}

// The words of a case, with a number in place of the first.
fn numbered(text: &str, number: u64, told: &mut Told) -> Vec<String> {
    let mut words = words_of(text, told);
    let made = format!(in told.alloc; "{number}");
    if let Some(own) = told.made(made) {
        if let Some(word) = words.first_mut() {
            *word = own;
        }
    }
    words
}

// The cases that a line stands for: itself, or where its first word is a range one for each number of it.
fn put_cases(cases: &mut Vec<Vec<String>>, text: &str, told: &mut Told) {
    let words = words_of(text, told);
    let range = match words.first() {
        Some(word) => range_of(word.as_str()),
        None => None,
    };
    let Some((first, last)) = range else {
        told.push(cases, words);
        return;
    };
    for number in first..last.saturating_add(1) {
        let case = numbered(text, number, told);
        told.push(cases, case);
    }
}

// The cases of a row; one without words where it tells none.
fn cases_of(lines: &[&str], told: &mut Told) -> Vec<Vec<String>> {
    let mut cases = Vec::new(told.alloc);
    for line in lines {
        if let Some(words) = line.trim().strip_prefix("case ") {
            put_cases(&mut cases, words, told);
        }
    }
    if cases.is_empty() {
        let none = Vec::new(told.alloc);
        told.push(&mut cases, none);
    }
    cases
}

// How many rows held, how many came to something else as they should, and how many did neither.
#[derive(Clone, Copy, Drop)]
struct Counts {
    held: u64,
    differed: u64,
    failed: u64,
}

// What a row came to.
#[derive(Clone, Copy, Drop)]
enum Came {
    Held,
    Differed,
    Failed,
}

impl Counts {
    fn none() -> Counts {
        Counts {
            held: 0,
            differed: 0,
            failed: 0,
        }
    }

    // One failure.
    fn of_failure() -> Counts {
        Counts {
            held: 0,
            differed: 0,
            failed: 1,
        }
    }

    fn add(&mut self, came: Came) {
        match came {
            Came::Held => self.held = self.held.saturating_add(1),
            Came::Differed => self.differed = self.differed.saturating_add(1),
            Came::Failed => self.failed = self.failed.saturating_add(1),
        }
    }

    fn add_all(&mut self, other: Counts) {
        self.held = self.held.saturating_add(other.held);
        self.differed = self.differed.saturating_add(other.differed);
        self.failed = self.failed.saturating_add(other.failed);
    }
}

// Tells that a row does not hold in a case.
fn tell_not(report: &mut Told, name: &str, case: &[String]) {
    let made = format!(in report.alloc; "NOT {name} {case:?}\n");
    if let Some(own) = report.made(made) {
        report.put(own.as_str());
    }
}

// Does a row in these cases, up to the first in which it does not come to what it says; whether there is none.
fn cases_hold<S: Subject, F: Fn(&mut S, &str, &Block)>(
    step: &F,
    subject: &mut S,
    part: &Part,
    cases: &[Vec<String>],
    report: &mut Told,
) -> bool
    requires able { (s t b : _) → F.pre step.now s t b }
{
    for case in cases {
        subject.begin();
        if !steps(step, subject, part, case, report) {
            tell_not(report, part.name, case);
            return false;
        }
    }
    true
}

// Does a row in each of its cases.
fn all_cases<S: Subject, F: Fn(&mut S, &str, &Block)>(
    step: &F,
    subject: &mut S,
    part: &Part,
    report: &mut Told,
) -> Came
    requires able { (s t b : _) → F.pre step.now s t b }
{
    let cases = cases_of(part.lines, report);
    if !cases_hold(step, subject, part, &cases, report) {
        return Came::Failed;
    }
    report.put_all(&["ok ", part.name, "\n"]);
    if should_differ(part) {
        Came::Differed
    } else {
        Came::Held
    }
}

// Whether a line begins a row.
fn is_row(line: &str) -> bool {
    line.starts_with("row ") || line.starts_with("differs ")
}

// Where the next row begins, at a place or behind it.
fn next_row(lines: &[&str], from: usize) -> usize {
    let mut at = from;
    for line in lines.iter().skip(from) {
        if is_row(line) {
            break;
        }
        at = at.saturating_add(1);
    }
    at
}

// The row of lines, of which the first has a number.
fn part_of<'a, 'b>(lines: &'a [&'b str], number: usize) -> Part<'a, 'b> {
    let sentence = match lines.first() {
        Some(line) => *line,
        None => "",
    };
    Part {
        name: sentence.trim(),
        lines: rest(lines, 1),
        first: number.saturating_add(1),
    }
}

// Does what stands before the first row of a file.
fn setup<S: Subject, F: Fn(&mut S, &str, &Block)>(
    step: &F,
    subject: &mut S,
    lines: &[&str],
    report: &mut Told,
) -> Came
    requires able { (s t b : _) → F.pre step.now s t b }
{
    let part = Part {
        name: "",
        lines,
        first: 1,
    };
    let none = Vec::new(report.alloc);
    if !steps(step, subject, &part, &none, report) {
        report.put("NOT what stands before the first row\n");
        return Came::Failed;
    }
    subject.mark();
    Came::Held
}

// Prints what was told of a row, which failed where there was no memory for that.
fn printed(rt: &impl Print, report: Told, came: Came) -> io::Result<Came> {
    match report.text() {
        Ok(text) => {
            print!(rt; "{text}")?;
            Ok(came)
        }
        Err(_) => {
            println!(rt; "    no memory")?;
            Ok(Came::Failed)
        }
    }
}

// Does the row of lines, of which the first has a number, and prints what it comes to.
fn row<W: Print, S: Subject, F: Fn(&mut S, &str, &Block)>(
    rt: &W,
    step: &F,
    subject: &mut S,
    alloc: Global,
    lines: &[&str],
    number: usize,
) -> io::Result<Came>
    requires able { (s t b : _) → F.pre step.now s t b }
{
    let mut report = Told::new(alloc);
    let came = all_cases(step, subject, &part_of(lines, number), &mut report);
    printed(rt, report, came)
}

// Does the rows of lines, of which the first begins at a place.
fn rows<W: Print, S: Subject, F: Fn(&mut S, &str, &Block)>(
    rt: &W,
    step: &F,
    subject: &mut S,
    alloc: Global,
    lines: &[&str],
    begin: usize,
) -> io::Result<Counts>
    requires able { (s t b : _) → F.pre step.now s t b }
{
    let mut counts = Counts::none();
    let mut at = begin;
    for _ in 0..lines.len() {
        if at < lines.len() {
            let number = at.saturating_add(1);
            let end = next_row(lines, number);
            let own = lines.get(at..end).unwrap_or(&[]);
            counts.add(row(rt, step, subject, alloc, own, number)?);
            at = end;
        }
    }
    Ok(counts)
}

// Does the rows of a file, behind what stands before them where that held.
fn file<W: Print, S: Subject + Drop, F: Fn(&mut S, &str, &Block)>(
    rt: &W,
    step: &F,
    alloc: Global,
    lines: &[&str],
) -> io::Result<Counts>
    requires able { (s t b : _) → F.pre step.now s t b }
{
    let begin = next_row(lines, 0);
    let before = lines.get(..begin).unwrap_or(&[]);
    let mut subject = S::new(alloc);
    let mut report = Told::new(alloc);
    let came = setup(step, &mut subject, before, &mut report);
    match printed(rt, report, came)? {
        Came::Failed => Ok(Counts::of_failure()),
        _ => rows(rt, step, &mut subject, alloc, lines, begin),
    }
}

// Does the rows of a text, with a new subject.
fn of_text<W: Print, S: Subject + Drop, F: Fn(&mut S, &str, &Block)>(
    rt: &W,
    step: &F,
    alloc: Global,
    text: &str,
) -> io::Result<Counts>
    requires able { (s t b : _) → F.pre step.now s t b }
{
    let lines = text.lines().collect::<Vec<&str>>(alloc)?;
    file::<W, S, F>(rt, step, alloc, &lines)
}

// Does the rows of the file of a name, with a new subject.
fn named<R: AllocGlobal + Files + Print, S: Subject + Drop, F: Fn(&mut S, &str, &Block)>(
    rt: &R,
    step: &F,
    name: &str,
) -> io::Result<Counts>
    requires able { (s t b : _) → F.pre step.now s t b }
{
    println!(rt; "== {name}")?;
    let text = fs::read_to_string(rt, name)?;
    of_text::<R, S, F>(rt, step, rt.alloc(), text.as_str())
}

// Puts those of the program's words that are meant behind others, in order.
fn put_words<R: AllocGlobal + Env, P: Fn(&str) -> bool>(
    rt: &R,
    is_meant: &P,
    words: &mut Vec<String>,
) -> io::Result<()>
    requires able { (s : _) → P.pre is_meant.now s }
{
    for word in env::args(rt)?.skip(1) {
        if is_meant(word.as_str()) {
            words.push(word)?;
        }
    }
    Ok(())
}

/// Those of the program's words that are meant, in order.
pub fn words_where<R: AllocGlobal + Env, P: Fn(&str) -> bool>(
    rt: &R,
    is_meant: &P,
) -> io::Result<Vec<String>>
    requires able { (s : _) → P.pre is_meant.now s }
{
    let mut words = Vec::new(rt.alloc());
    put_words(rt, is_meant, &mut words)?;
    Ok(words)
}

// Prints how many rows held, differed and did neither; whether there is none of the last.
fn print_counts(rt: &impl Print, counts: Counts) -> io::Result<bool> {
    let Counts {
        held,
        differed,
        failed,
    } = counts;
    println!(rt; "{held} rows held, {differed} differed as they should, {failed} did neither")?;
    Ok(failed == 0)
}

/// Does the rows of these files, each file with a new subject, and tells the result of each, how many held, how many differed as they should, and
/// how many did neither. The answer is whether there is none of the last. Of no file nothing is told.
pub fn run_files<R: AllocGlobal + Files + Print, S: Subject + Drop, F: Fn(&mut S, &str, &Block)>(
    rt: &R,
    step: &F,
    names: &[String],
) -> io::Result<bool>
    requires able { (s t b : _) → F.pre step.now s t b }
{
    if names.is_empty() {
        return Ok(true);
    }
    let mut counts = Counts::none();
    for name in names {
        counts.add_all(named::<R, S, F>(rt, step, name.as_str())?);
    }
    print_counts(rt, counts)
}
