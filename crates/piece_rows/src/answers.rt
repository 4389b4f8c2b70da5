// Answers and verdicts of audits as rows spell them.
use crate::kinds::kind_of;
use crate::reader::Reader;
use audit::Verdict;
use cbdc_types::{Answer, Header, Stamp, Totals, UnsoundKind};

// `cause`, `unfinished`, `unknown ID`, `unfunded ID`
fn unsound_kind(words: &mut Reader) -> UnsoundKind {
    match words.word() {
        "cause" => UnsoundKind::Cause,
        "unfinished" => UnsoundKind::Unfinished,
        "unknown" => UnsoundKind::Unknown(words.hash()),
        "unfunded" => UnsoundKind::Unfunded(words.hash()),
        _ => {
            words.refuse();
            UnsoundKind::Cause
        }
    }
}

// `PLACE KIND`
fn unsound(words: &mut Reader) -> Answer {
    let place = words.number();
    let kind = unsound_kind(words);
    Answer::Unsound { place, kind }
}

// `FILE AT KIND`
fn bad_input(words: &mut Reader) -> Answer {
    let (file, at) = (words.number(), words.number());
    let kind = kind_of(words);
    Answer::BadInput { file, at, kind }
}

// `NODE USED NEED CAPACITY`
fn full(words: &mut Reader) -> Answer {
    let (node, used) = (words.node(), words.number());
    let (need, capacity) = (words.number(), words.number());
    Answer::Full {
        node,
        used,
        need,
        capacity,
    }
}

// An answer that speaks of a node, and maybe a number.
fn of_node(words: &mut Reader, header: &Header, kind: &str) -> Answer {
    let node = words.node();
    match kind {
        "not-ready" => Answer::NotReady(node),
        "not-empty" => Answer::NotEmpty(node),
        "disk" => Answer::DiskFault(node),
        "foreign" => Answer::Foreign {
            node,
            kept: *header,
            asked: *header,
        },
        "clock" => {
            let stamp = Stamp(words.number());
            Answer::ClockEnd { node, stamp }
        }
        "damaged" => {
            let at = words.number();
            Answer::Damaged { node, at }
        }
        _ => {
            words.refuse();
            Answer::Ok
        }
    }
}

// An answer that tells something.
fn telling(words: &mut Reader, header: &Header, kind: &str) -> Answer {
    match kind {
        "input" => bad_input(words),
        "full" => full(words),
        "unsound" => unsound(words),
        "minted" => {
            let total = words.wide();
            Answer::TooMuch { total }
        }
        "read" => {
            let file = words.number();
            Answer::ReadFault { file }
        }
        kind => of_node(words, header, kind),
    }
}

/// The answer that words spell.
pub fn answer_of(words: &mut Reader, header: &Header) -> Answer {
    match words.word() {
        "ok" => Answer::Ok,
        "words" => Answer::BadWords,
        "write" => Answer::WriteFault,
        "memory" => Answer::Memory,
        kind => telling(words, header, kind),
    }
}

/// The totals that words spell: `COINS VALUE MINTED COMMITTED MONEY ISSUED REDEEMED`.
pub fn totals(words: &mut Reader) -> Totals {
    let (coins, value) = (words.number(), words.wide());
    let (minted, committed) = (words.wide(), words.number());
    let (money, issued, redeemed) = (words.wide(), words.wide(), words.wide());
    Totals {
        coins,
        value,
        minted,
        committed,
        money,
        issued,
        redeemed,
    }
}

/// The verdict of an audit that words spell: `sound` and totals, or `unsound PLACE KIND`.
pub fn verdict_of(words: &mut Reader) -> Verdict {
    if words.word() == "sound" {
        return Verdict::Sound(totals(words));
    }
    let place = words.number();
    let kind = unsound_kind(words);
    Verdict::Unsound { place, kind }
}
