// What is wrong with an input, as rows spell it.
use crate::reader::Reader;
use cbdc_types::InputKind;
use row_records::Told;

/// The word of a fault.
pub fn kind_word(kind: InputKind) -> &'static str {
    match kind {
        InputKind::Cut => "cut",
        InputKind::TooMany => "too-many",
        InputKind::TooLong => "too-long",
        InputKind::Zero => "zero",
        InputKind::Extra => "extra",
        InputKind::Large => "large",
        InputKind::Form => "form",
        InputKind::Repeated => "repeated",
    }
}

const KINDS: [InputKind; 8] = [
    InputKind::Cut,
    InputKind::TooMany,
    InputKind::TooLong,
    InputKind::Zero,
    InputKind::Extra,
    InputKind::Large,
    InputKind::Form,
    InputKind::Repeated,
];

/// The fault that a word is.
pub fn kind_of(words: &mut Reader) -> InputKind {
    let word = words.word();
    for kind in &KINDS {
        if kind_word(*kind) == word {
            return *kind;
        }
    }
    words.refuse();
    InputKind::Cut
}

/// Tells `at N KIND`: what is wrong, and where.
pub fn tell_bad(told: &mut Told, at: u64, kind: InputKind) {
    told.named("at", at as u128);
    told.word(kind_word(kind));
}
