// What members send each other, and what may happen to a group.
use cbdc_types::Record;

/// What one member sends another.
#[derive(Drop)]
pub enum Packet {
    /// The primary's record at a place, for a member.
    Copy {
        to: u32,
        term: u64,
        place: u64,
        record: Record,
    },
    /// The last record of a new primary and its place, for a member.
    Hello {
        to: u32,
        term: u64,
        place: u64,
        record: Record,
    },
    /// How many records a member holds, for the primary of its term.
    Ack {
        sender: u32,
        term: u64,
        count: u64,
    },
}

/// What may happen to a group.
#[derive(Drop)]
pub enum GroupEvent {
    /// The primary takes a record.
    Take(Record),
    /// Its record at a place is sent to a member.
    Send { to: u32, place: u64 },
    /// A packet comes, by its number among all that were ever sent.
    Deliver(u64),
    /// The primary's records are answered.
    Answer,
    /// A backup is made the primary.
    Promote(u32),
}
