// Events of a group.
use crate::looking::NO_GROUP;
use crate::state::{Named, State, record_named, tell_name};
use cbdc_types::NodeId;
use plain_check::Event;
use replica_group::Group;
use row_records::{Told, rest};
use shard_replica::GroupEvent;

// How many words stand behind that of an event.
fn most_of(verb: &str) -> usize {
    match verb {
        "answer" => 0,
        "send" => 2,
        _ => 1,
    }
}

// The event of a step: `take NAME`, `send TO PLACE`, `deliver NUMBER`, `answer`, `promote MEMBER`.
fn event_of(records: &[Named], words: &[&str], told: &mut Told) -> Option<GroupEvent> {
    let (verb, own) = (told.word_at(words, 0), rest(words, 1));
    told.at_most(own, most_of(verb));
    match verb {
        "take" => Some(GroupEvent::Take(record_named(records, told.word_at(own, 0), told)?)),
        "send" => Some(GroupEvent::Send {
            to: told.small_at(own, 0),
            place: told.number_at(own, 1),
        }),
        "deliver" => Some(GroupEvent::Deliver(told.number_at(own, 0))),
        "answer" => Some(GroupEvent::Answer),
        "promote" => Some(GroupEvent::Promote(told.small_at(own, 0))),
        _ => {
            told.refuse("no such event");
            None
        }
    }
}

// What happens at a node of a world: `begin NAME`, `end`, `crash kept` or `crash lost`, `reopen`.
fn tell_event(records: &[Named], event: &Event, told: &mut Told) {
    match event {
        Event::Begin(_node, record) => {
            told.word("begin");
            tell_name(records, record, told);
        }
        Event::End(_node) => told.word("end"),
        Event::Crash(_node, kept) => {
            told.word("crash");
            told.word(if *kept { "kept" } else { "lost" });
        }
        Event::Reopen(_node) => told.word("reopen"),
        Event::Repeat(_node, _call) => told.word("repeat"),
    }
}

// What an event is at the group's node of a world.
fn tell_world(node: u32, records: &[Named], group: &Group, event: &GroupEvent, told: &mut Told) {
    let found = group.world_events(told.alloc, NodeId(node), event);
    if let Some(events) = told.made(found) {
        for own in &events {
            tell_event(records, own, told);
        }
    }
}

/// An event happens. Its answer is what it is at the group's node of a world.
pub fn happen(state: &mut State, words: &[&str], told: &mut Told) {
    let State {
        node,
        records,
        group,
        ..
    } = state;
    let Some(group) = group else {
        told.refuse(NO_GROUP);
        return;
    };
    if let Some(event) = event_of(records.as_slice(), words, told) {
        tell_world(*node, records.as_slice(), group, &event, told);
        told.made(group.step(told.alloc, &event));
    }
}

// The events of lines.
fn events_in(records: &[Named], text: &str, told: &mut Told) -> Vec<GroupEvent> {
    let mut all = Vec::new(told.alloc);
    for line in text.lines() {
        let words = told.words_of(line);
        let own = event_of(records, &words, told);
        told.push_some(&mut all, own);
    }
    all
}

/// `run`, with a line for each event: they happen in turn.
pub fn run(state: &mut State, text: &str, told: &mut Told) {
    let State { records, group, .. } = state;
    let Some(group) = group else {
        told.refuse(NO_GROUP);
        return;
    };
    let events = events_in(records.as_slice(), text, told);
    told.made(group.run(told.alloc, events.as_slice()));
}
