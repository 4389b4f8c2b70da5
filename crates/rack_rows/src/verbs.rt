// The words of steps: what a step does, and what it does to a file or a disk.
use row_records::{Block, Told};

/// What a step does, or what it does to a file or a disk.
#[derive(Clone, Copy, Drop)]
pub enum Verb {
    Run,
    Plain,
    Tested,
    Hash,
    Tx,
    File,
    Rack,
    Load,
    Keep,
    Node,
    Crash,
    Room,
    Order,
    Used,
    Same,
    Gates,
    Bytes,
    Journal,
    Asked,
    Passed,
    Fetched,
    Taken,
    Faults,
    Mint,
    Client,
    Good,
    Text,
    Hex,
    Set,
    Add,
    Truncate,
    Cut,
    Like,
    Fails,
    Stops,
}

// So many words as there are.
const ANY: usize = usize::MAX;

// Each with how many words there may be, itself counted.
const VERBS: [(&str, Verb, usize); 35] = [
    ("$", Verb::Run, ANY),
    ("plain", Verb::Plain, ANY),
    ("tested", Verb::Tested, 2),
    ("hash", Verb::Hash, 3),
    ("tx", Verb::Tx, ANY),
    ("file", Verb::File, ANY),
    ("rack", Verb::Rack, ANY),
    ("load", Verb::Load, ANY),
    ("keep", Verb::Keep, 2),
    ("node", Verb::Node, ANY),
    ("crash", Verb::Crash, 3),
    ("room", Verb::Room, 2),
    ("order", Verb::Order, 3),
    ("used", Verb::Used, ANY),
    ("same", Verb::Same, 2),
    ("gates", Verb::Gates, ANY),
    ("bytes", Verb::Bytes, 4),
    ("journal", Verb::Journal, 2),
    ("asked", Verb::Asked, ANY),
    ("passed", Verb::Passed, 1),
    ("fetched", Verb::Fetched, ANY),
    ("taken", Verb::Taken, ANY),
    ("faults", Verb::Faults, ANY),
    ("mint", Verb::Mint, ANY),
    ("client", Verb::Client, ANY),
    ("good", Verb::Good, ANY),
    ("text", Verb::Text, 1),
    ("hex", Verb::Hex, 2),
    ("set", Verb::Set, 3),
    ("add", Verb::Add, 2),
    ("truncate", Verb::Truncate, 2),
    ("cut", Verb::Cut, 2),
    ("like", Verb::Like, 3),
    ("fails", Verb::Fails, 2),
    ("stops", Verb::Stops, 2),
];

/// The verb that words begin with; it is told where they are too many for it.
pub fn verb_of(words: &[&str], told: &mut Told) -> Option<Verb> {
    let own = told.word_at(words, 0);
    for (name, verb, most) in &VERBS {
        if *name == own {
            told.at_most(words, *most);
            return Some(*verb);
        }
    }
    told.refuse("no such step");
    None
}

/// Whether what stands behind a step is for it: a run has a text and a status, few others have a text.
pub fn is_for(verb: Verb, block: &Block) -> bool {
    let is_of_run = block.is_any || block.is_any_status || block.status != 0;
    match verb {
        Verb::Run | Verb::Plain | Verb::Tested => true,
        Verb::File | Verb::Order | Verb::Journal | Verb::Passed => !is_of_run,
        _ => !is_of_run && block.text.is_empty(),
    }
}
