// The bodies of a journal, where they lie in its bytes.
ghost use Rattle.std.specs.Prelude.{◌≡◌, ◌↔◌, ◌+◌, ◌≤◌, ◌<◌, [], length, map, All, Some, slice_get, IsTrue};
ghost use Rattle.gate_journal.specs.Spans.{span_body, IsSpanWithin};

use std::marker::Model;

/// Where a body lies.
#[derive(Clone, Copy, Debug)]
pub(crate) struct Span {
    pub(crate) at: usize,
    pub(crate) len: usize,
}

/// The bodies of a journal's records, in the order in which they were appended. They are kept as they were read, with all bytes of the disk;
/// contracts see the list of them.
#[derive(Debug, Drop)]
pub struct Bodies {
    bytes: Vec<u8>,
    spans: Vec<Span>,
}

impl Model for Bodies {
    ghost use Rattle.std.specs.Prelude.{List, ℕ, map, All};
    ghost use Rattle.gate_journal.specs.Spans.{span_body, IsSpanWithin};

    ghost Value = { List (List ℕ) };

    ghost view = { λ b. map (span_body b.bytes.items) b.spans.items };

    ghost invariant = { λ b. All (IsSpanWithin b.bytes.items) b.spans.items };
}

// The bytes of a span.
fn bytes_of(bytes: &[u8], span: Span) -> &[u8]
    requires { IsSpanWithin bytes.now span }
    ensures { result.now ≡ span_body bytes.now span }
{
    bytes.split_at(span.at).1.split_at(span.len).0
}

impl Bodies {
    /// The bodies that lie at these places.
    pub(crate) fn of(bytes: Vec<u8>, spans: Vec<Span>) -> Bodies
        requires { All (IsSpanWithin bytes.items) spans.items }
        ensures { result ≡ map (span_body bytes.items) spans.items }
    {
        Bodies { bytes, spans }
    }

    /// How many there are.
    pub fn len(&self) -> usize
        ensures { result ≡ length self.now }
    {
        self.spans.len()
    }

    /// Whether there is none.
    pub fn is_empty(&self) -> bool
        ensures { IsTrue result ↔ (self.now ≡ []) }
    {
        self.spans.is_empty()
    }

    /// One of them.
    pub fn body(&self, i: usize) -> &[u8]
        requires { i < length self.now }
        ensures { slice_get self.now i ≡ Some result.now }
    {
        bytes_of(self.bytes.as_slice(), self.spans[i])
    }
}
