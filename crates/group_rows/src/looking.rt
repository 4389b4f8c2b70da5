// Looks at a group.
use crate::state::{Named, State, tell_name, tell_names};
use replica_group::{Group, Member};
use row_records::Told;
use shard_replica::Packet;

/// No group was begun before.
pub const NO_GROUP: &str = "no group was begun";

// What a member does in the group.
fn place_of(member: &Member, leads: bool) -> &'static str {
    if leads {
        "leads"
    } else if member.inside {
        "follows"
    } else {
        "left"
    }
}

// A member in a line: `leads`, `follows` or `left`, its term, and the names of its records.
fn tell_member(names: &[Named], member: &Member, leads: bool, told: &mut Told) {
    told.word(place_of(member, leads));
    told.number(member.term);
    tell_names(names, member.records.as_slice(), told);
    told.line();
}

// The members in lines, by number.
fn tell_members(names: &[Named], group: &Group, told: &mut Told) {
    let mut at = 0u32;
    for member in group.members() {
        tell_member(names, member, at == group.primary(), told);
        at = at.saturating_add(1);
    }
}

/// `members`: a line for each, and how many of the primary's records are answered, with `flying` where its last one is in flight.
pub fn members(state: &State, group: &Group, told: &mut Told) {
    tell_members(state.records.as_slice(), group, told);
    told.named("answered", u128::from(group.answered()));
    if group.is_flying() {
        told.word("flying");
    }
}

// A packet in a line: `copy TO TERM PLACE NAME`, `hello TO TERM PLACE NAME`, `ack SENDER TERM COUNT`.
fn tell_packet(names: &[Named], packet: &Packet, told: &mut Told) {
    match packet {
        Packet::Copy {
            to,
            term,
            place,
            record,
        } => {
            told.word("copy");
            told.numbers(&[u64::from(*to), *term, *place]);
            tell_name(names, record, told);
        }
        Packet::Hello {
            to,
            term,
            place,
            record,
        } => {
            told.word("hello");
            told.numbers(&[u64::from(*to), *term, *place]);
            tell_name(names, record, told);
        }
        Packet::Ack {
            sender,
            term,
            count,
        } => {
            told.word("ack");
            told.numbers(&[u64::from(*sender), *term, *count]);
        }
    }
    told.line();
}

/// `sent`: every packet that was ever sent, a line for each, from number 0 on.
pub fn sent(state: &State, group: &Group, told: &mut Told) {
    for packet in group.sent() {
        tell_packet(state.records.as_slice(), packet, told);
    }
}
