// The steps, by their first words.
use row_records::Block;

/// What a step does.
#[derive(Clone, Copy, Drop)]
pub enum Verb {
    Shape,
    Mint,
    Tx,
    Form,
    Files,
    Earlier,
    Ledger,
    Change,
    Clean,
    Kept,
    Alike,
    Waves,
    History,
    Commits,
    Comes,
    Ask,
    Status,
    Remembers,
    Counts,
    Next,
    Says,
    Slots,
    Sizes,
    Room,
    Need,
    May,
    Follows,
    Unsound,
    Ordered,
    Holds,
    Outcome,
    Refused,
    Prints,
    Is,
    World,
    Begin,
    End,
    Write,
    Stop,
    Reopen,
    Again,
    Nodes,
    Flight,
    Stands,
    Recovered,
}

const VERBS: [(&str, Verb); 45] = [
    ("shape", Verb::Shape),
    ("mint", Verb::Mint),
    ("tx", Verb::Tx),
    ("form", Verb::Form),
    ("files", Verb::Files),
    ("earlier", Verb::Earlier),
    ("ledger", Verb::Ledger),
    ("change", Verb::Change),
    ("clean", Verb::Clean),
    ("kept", Verb::Kept),
    ("alike", Verb::Alike),
    ("waves", Verb::Waves),
    ("history", Verb::History),
    ("commits", Verb::Commits),
    ("comes", Verb::Comes),
    ("ask", Verb::Ask),
    ("status", Verb::Status),
    ("remembers", Verb::Remembers),
    ("counts", Verb::Counts),
    ("next", Verb::Next),
    ("says", Verb::Says),
    ("slots", Verb::Slots),
    ("sizes", Verb::Sizes),
    ("room", Verb::Room),
    ("need", Verb::Need),
    ("may", Verb::May),
    ("follows", Verb::Follows),
    ("unsound", Verb::Unsound),
    ("ordered", Verb::Ordered),
    ("holds", Verb::Holds),
    ("outcome", Verb::Outcome),
    ("refused", Verb::Refused),
    ("prints", Verb::Prints),
    ("is", Verb::Is),
    ("world", Verb::World),
    ("begin", Verb::Begin),
    ("end", Verb::End),
    ("write", Verb::Write),
    ("stop", Verb::Stop),
    ("reopen", Verb::Reopen),
    ("again", Verb::Again),
    ("nodes", Verb::Nodes),
    ("flight", Verb::Flight),
    ("stands", Verb::Stands),
    ("recovered", Verb::Recovered),
];

/// The verb of a word.
pub fn verb_of(word: &str) -> Option<Verb> {
    for (name, verb) in &VERBS {
        if *name == word {
            return Some(*verb);
        }
    }
    None
}

/// Whether a step takes the text behind it in, or compares it by itself; else that is its answer.
pub fn takes_text(verb: Verb) -> bool {
    match verb {
        Verb::Ledger | Verb::Prints => true,
        _ => false,
    }
}

// Whether a step looks at the text behind it.
fn has_text(verb: Verb) -> bool {
    match verb {
        Verb::Shape | Verb::Mint | Verb::Tx | Verb::Form | Verb::Files | Verb::Earlier => false,
        Verb::Change | Verb::Clean | Verb::Kept | Verb::Alike | Verb::Waves | Verb::Ordered =>
            false,
        Verb::Holds | Verb::Is | Verb::World | Verb::Begin | Verb::End | Verb::Write => false,
        Verb::Stop | Verb::Reopen | Verb::Again | Verb::Flight => false,
        Verb::Stands | Verb::Recovered => false,
        _ => true,
    }
}

/// Whether what stands behind a step is for it: a text alone, where the step looks at it.
pub fn is_for(verb: Verb, block: &Block) -> bool {
    let is_of_run = block.is_any || block.is_any_status || block.status != 0;
    !is_of_run && (has_text(verb) || block.text.is_empty())
}
