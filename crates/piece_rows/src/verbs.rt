// The steps, by their first words.
use row_records::Block;

/// What a step does.
#[derive(Clone, Copy, Drop)]
pub enum Verb {
    Hash,
    Shape,
    Genesis,
    Tx,
    Form,
    Bytes,
    Text,
    Words,
    Shows,
    ShowsLike,
    MintFile,
    ClientFile,
    VerdictFile,
    Verdict,
    Fetch,
    Streams,
    Number,
    Small,
    Fields,
    TxBytes,
    ReadsTx,
    Feeds,
    RecordBytes,
    ReadsRecord,
    ReadsFirst,
    Hashes,
    CoinHash,
    Sha,
    Digits,
    Undigits,
    Shard,
    Split,
    Batcher,
    Workload,
    Sentinel,
    Line,
    Fault,
    Audited,
    Messages,
}

const VERBS: [(&str, Verb); 39] = [
    ("hash", Verb::Hash),
    ("shape", Verb::Shape),
    ("genesis", Verb::Genesis),
    ("tx", Verb::Tx),
    ("form", Verb::Form),
    ("bytes", Verb::Bytes),
    ("text", Verb::Text),
    ("words", Verb::Words),
    ("shows", Verb::Shows),
    ("shows-like", Verb::ShowsLike),
    ("mint-file", Verb::MintFile),
    ("client-file", Verb::ClientFile),
    ("verdict-file", Verb::VerdictFile),
    ("verdict", Verb::Verdict),
    ("fetch", Verb::Fetch),
    ("streams", Verb::Streams),
    ("number", Verb::Number),
    ("small", Verb::Small),
    ("fields", Verb::Fields),
    ("tx-bytes", Verb::TxBytes),
    ("reads-tx", Verb::ReadsTx),
    ("feeds", Verb::Feeds),
    ("record-bytes", Verb::RecordBytes),
    ("reads-record", Verb::ReadsRecord),
    ("reads-first", Verb::ReadsFirst),
    ("hashes", Verb::Hashes),
    ("coin-hash", Verb::CoinHash),
    ("sha", Verb::Sha),
    ("digits", Verb::Digits),
    ("undigits", Verb::Undigits),
    ("shard", Verb::Shard),
    ("split", Verb::Split),
    ("batcher", Verb::Batcher),
    ("workload", Verb::Workload),
    ("sentinel", Verb::Sentinel),
    ("line", Verb::Line),
    ("fault", Verb::Fault),
    ("audited", Verb::Audited),
    ("messages", Verb::Messages),
];

/// The verb of a word.
pub fn verb_of(word: &str) -> Option<Verb> {
    for (name, verb) in &VERBS {
        if *name == word {
            return Some(*verb);
        }
    }
    None
}

// Whether a step looks at the text behind it.
fn has_text(verb: Verb) -> bool {
    match verb {
        Verb::Hash | Verb::Shape | Verb::Genesis | Verb::Tx | Verb::Form | Verb::Bytes => false,
        Verb::ShowsLike | Verb::Number | Verb::Fields | Verb::TxBytes => false,
        _ => true,
    }
}

/// Whether a step takes the text behind it in, or compares it by itself; else that is its answer.
pub fn takes_text(verb: Verb) -> bool {
    match verb {
        Verb::Text | Verb::Shows | Verb::Line | Verb::Audited | Verb::Fault => true,
        _ => false,
    }
}

/// Whether what stands behind a step is for it: only a fault has a status, and many steps have no text.
pub fn is_for(verb: Verb, block: &Block) -> bool {
    if block.is_any || block.is_any_status {
        return false;
    }
    match verb {
        Verb::Fault => true,
        other => block.status == 0 && (has_text(other) || block.text.is_empty()),
    }
}
