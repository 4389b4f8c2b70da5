// What words ask for.
use cbdc_types::{Hash, Shape};
use command_line::parse;
use requests::{FileWord, GenOptions, Request, RunOptions, WordsFault};
use row_records::{Told, words_around};

/// Tells the four numbers of a shape.
pub fn tell_shape(told: &mut Told, shape: &Shape) {
    told.number(shape.shards() as u64);
    told.number(shape.coordinators() as u64);
    told.number(shape.lanes() as u64);
    told.number(shape.batch() as u64);
}

// A file's name, `""` where it is empty, and which of the words it is.
fn tell_file(told: &mut Told, file: &FileWord) {
    let is_empty = file.name.is_empty();
    told.word(if is_empty { "\"\"" } else { file.name });
    told.number(file.place as u64);
}

fn tell_files(told: &mut Told, command: &str, first: &FileWord, others: &[FileWord]) {
    told.word(command);
    tell_file(told, first);
    for file in others {
        tell_file(told, file);
    }
}

// A run that repeats no call is told without a number for that.
fn tell_run(told: &mut Told, verdicts: &FileWord, clients: &[FileWord], options: &RunOptions) {
    tell_files(told, "run", verdicts, clients);
    if options.repeats > 0 {
        told.word("repeats");
        told.number(options.repeats as u64);
    }
}

fn tell_init(told: &mut Told, shape: &Shape, mint: &FileWord) {
    told.word("init");
    tell_shape(told, shape);
    tell_file(told, mint);
}

fn tell_status(told: &mut Told, hashes: &[Hash]) {
    told.word("status");
    for hash in hashes {
        told.digits(hash.0.as_slice());
    }
}

// A workload over shards on one disk each is told without a number for that, and one that is not watched without a word.
fn tell_gen(told: &mut Told, shape: &Shape, seed: u64, count: u32, options: &GenOptions) {
    told.word("gen");
    tell_shape(told, shape);
    told.number(seed);
    told.number(count as u64);
    if options.replicas > 0 {
        told.word("replicas");
        told.number(options.replicas as u64);
    }
    if options.watch {
        told.word("watch");
    }
}

// What a request is; of one to show a text, the text.
fn tell_request(told: &mut Told, request: &Request) {
    match request {
        Request::Init { shape, mint } => tell_init(told, shape, mint),
        Request::Run {
            verdicts,
            clients,
            options,
        } => tell_run(told, verdicts, clients, options),
        Request::Recover => told.word("recover"),
        Request::Status { hashes } => tell_status(told, hashes),
        Request::Audit { mint, clients } => tell_files(told, "audit", mint, clients),
        Request::Gen {
            shape,
            seed,
            count,
            options,
        } => tell_gen(told, shape, *seed, *count, options),
        Request::Show(shown) => told.put(shown.as_str()),
    }
}

// The words of a program: `""` stands for an empty one.
fn owned(words: &[&str], told: &mut Told) -> Vec<String> {
    let alloc = told.alloc;
    let mut all = Vec::new(alloc);
    for word in words {
        let own = if *word == "\"\"" { "" } else { *word };
        if let Some(own) = told.made(String::from_str(alloc, own)) {
            told.push(&mut all, own);
        }
    }
    all
}

/// `words WORD..`, and what they ask for, or the text that they show.
pub fn words_ask(words: &[&str], told: &mut Told) {
    let own = owned(words, told);
    match parse(told.alloc, own.as_slice()) {
        Ok(request) => tell_request(told, &request),
        Err(WordsFault::Bad) => told.word("bad"),
        Err(WordsFault::Memory) => told.word("memory"),
    }
}

// What words ask for, as a text.
fn shown_by(words: &[&str], told: &mut Told) -> Option<String> {
    let mut own = Told::new(told.alloc);
    words_ask(words, &mut own);
    told.given(own.text())
}

fn has_line(text: &str, line: &str) -> bool {
    for own in text.lines() {
        if own == line {
            return true;
        }
    }
    false
}

/// `shows WORD..`, and lines that the text has which they show.
pub fn shows(words: &[&str], text: &str, told: &mut Told) {
    if let Some(came) = shown_by(words, told) {
        for line in text.lines() {
            if !has_line(came.as_str(), line) {
                told.check_same(line, came.as_str());
            }
        }
    }
}

/// `shows-like WORD.. / WORD..`: both ask for the same.
pub fn shows_like(words: &[&str], told: &mut Told) {
    let (first, second) = words_around(words, "/");
    let Some(wanted) = shown_by(first, told) else {
        return;
    };
    if let Some(came) = shown_by(second, told) {
        told.check_same(wanted.as_str(), came.as_str());
    }
}
