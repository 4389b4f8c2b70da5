// What an audit finds.
use cbdc_types::{Totals, UnsoundKind};

/// What an audit finds.
#[derive(Clone, Copy, Debug, PartialEq, Eq)]
pub enum Verdict {
    /// Nothing is wrong.
    Sound(Totals),
    /// The record at this place is the first that is wrong.
    Unsound { place: u64, kind: UnsoundKind },
}
