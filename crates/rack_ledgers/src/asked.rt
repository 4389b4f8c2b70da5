// The header that is asked of a node, and what a refusal to open it answers.
ghost use Rattle.std.specs.Prelude.{◌≡◌, ◌↔◌, IsTrue};
ghost use Rattle.std.specs.Option.{option_copied};
ghost use Rattle.rack_ledgers.specs.Asked.{asked_of as header_asked, IsHeaderAsked};
ghost use Rattle.rack_ledgers.specs.Refused.{refusal_answer, IsNodeRefusal};

use cbdc_types::{Answer, Header, NodeId, NodeOpenFault};

// The header that a node of the ledger should have, or of the ledger that it keeps.
fn asked_of(kept: &Header, node: NodeId, ledger: Option<&Header>) -> Header
    ensures { result ≡ header_asked node (option_copied ledger.entry) kept.now }
{
    match ledger {
        Some(ledger) => Header {
            node,
            shape: ledger.shape,
            genesis: ledger.genesis,
        },
        None => Header {
            node,
            shape: kept.shape,
            genesis: kept.genesis,
        },
    }
}

/// Whether a node has the header that it should have.
pub(crate) fn is_asked(kept: &Header, node: NodeId, ledger: Option<&Header>) -> bool
    ensures { IsTrue result ↔ IsHeaderAsked node (option_copied ledger.entry) kept.now }
{
    *kept == asked_of(kept, node, ledger)
}

/// The answer where a node has another header than it should have.
pub(crate) fn foreign(kept: &Header, node: NodeId, ledger: Option<&Header>) -> Answer
    ensures { result
        ≡ Answer.Foreign node kept.now (header_asked node (option_copied ledger.entry) kept.now) }
{
    Answer::Foreign {
        node,
        kept: *kept,
        asked: asked_of(kept, node, ledger),
    }
}

/// What a refusal to open a node answers. A disk that is of neither kind has no whole first record.
pub(crate) fn answer_of(node: NodeId, fault: NodeOpenFault) -> Answer
    ensures told { result ≡ refusal_answer node fault }
    ensures kind { IsNodeRefusal result }
{
    match fault {
        NodeOpenFault::DiskFault => Answer::DiskFault(node),
        NodeOpenFault::NotReady | NodeOpenFault::OtherKind => Answer::NotReady(node),
        NodeOpenFault::Damaged { at } => Answer::Damaged { node, at },
        NodeOpenFault::Full {
            used,
            need,
            capacity,
        } => Answer::Full {
            node,
            used,
            need,
            capacity,
        },
        NodeOpenFault::Memory => Answer::Memory,
    }
}
