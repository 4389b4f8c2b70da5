// A world of nodes, and what happens in it.
use crate::calls::call_of;
use crate::state::{State, row_of};
use crate::verbs::Verb;
use cbdc_types::{List, NodeId, Record};
use plain_check::{Event, Node, Row, World, is_recovered};
use row_records::{Known, Told, rest};

/// No world was made before.
pub const NO_WORLD: &str = "no world was made";

/// `world HASH..`: all nodes new, of a mint of these hashes.
pub fn world(state: &mut State, words: &[&str], told: &mut Told) {
    let alloc = told.alloc;
    let genesis = state.known.genesis();
    let Some(shape) = told.given(state.known.shape()) else {
        return;
    };
    let own = told.hashes_of(words);
    let made = World::new(alloc, &shape, &genesis, own.as_slice());
    state.world = told.made(made);
}

// Events happen in turn.
fn run(world: &mut World, events: &[Event], told: &mut Told) {
    told.made(world.run(told.alloc, events));
}

// `begin NODE RECORD`: it is begun there, and in flight.
fn begin(world: &mut World, row: Row, told: &mut Told) {
    run(world, &[Event::Begin(row.node, row.what)], told);
}

// `end NODE`: what is in flight there is written.
fn end(world: &mut World, node: NodeId, told: &mut Told) {
    run(world, &[Event::End(node)], told);
}

// `write NODE RECORD`: it is begun there and ended.
fn write(world: &mut World, row: Row, told: &mut Told) {
    let node = row.node;
    run(
        world,
        &[Event::Begin(node, row.what), Event::End(node)],
        told,
    );
}

// `stop NODE kept`, `stop NODE lost`: the node goes down, and keeps what is in flight or not.
fn stop(world: &mut World, node: NodeId, words: &[&str], told: &mut Told) {
    let is_kept = told.word_at(words, 1) == "kept";
    if !is_kept {
        told.expect(words, 1, "lost");
    }
    run(world, &[Event::Crash(node, is_kept)], told);
}

// `again NODE CALL`: the call is made again, however old.
fn again(known: &Known, world: &mut World, node: NodeId, words: &[&str], told: &mut Told) {
    if let Some(call) = call_of(known, node.0, rest(words, 1), told) {
        run(world, &[Event::Repeat(node, call)], told);
    }
}

// What happens at a node.
fn happen_at(known: &Known, world: &mut World, verb: Verb, words: &[&str], told: &mut Told) {
    let node = NodeId(told.small_at(words, 0));
    match verb {
        Verb::End => end(world, node, told),
        Verb::Stop => stop(world, node, words, told),
        // `reopen NODE`
        Verb::Reopen => run(world, &[Event::Reopen(node)], told),
        _ => again(known, world, node, words, told),
    }
}

// What happens with a record.
fn happen_with(known: &Known, world: &mut World, verb: Verb, words: &[&str], told: &mut Told) {
    if let Some(row) = row_of(known, words, told) {
        match verb {
            Verb::Begin => begin(world, row, told),
            _ => write(world, row, told),
        }
    }
}

/// Does a step in which something happens in the world.
pub fn happen(state: &mut State, verb: Verb, words: &[&str], told: &mut Told) {
    let State { known, world, .. } = state;
    let Some(world) = world else {
        told.refuse(NO_WORLD);
        return;
    };
    match verb {
        Verb::Begin | Verb::Write => happen_with(known, world, verb, words, told),
        other => happen_at(known, world, other, words, told),
    }
}

/// `nodes`, and `up` or `down` for each, with `writing` where something is in flight.
pub fn nodes(world: &World, told: &mut Told) {
    for node in &world.nodes {
        told.word(if node.up { "up" } else { "down" });
        if node.flight.is_some() {
            told.word("writing");
        }
    }
}

// Whether this is in flight at the node of its place.
fn is_in_flight(nodes: &[Node], place: usize, own: &Record) -> bool {
    match nodes.get(place) {
        Some(node) => match &node.flight {
            Some(there) => *there == *own,
            None => false,
        },
        None => false,
    }
}

/// `flight NODE RECORD`: this is in flight there.
pub fn flight(state: &State, world: &World, words: &[&str], told: &mut Told) {
    if let Some(row) = state.row(words, told) {
        let place = row.node.0 as usize;
        told.check_yes(is_in_flight(world.nodes.as_slice(), place, &row.what));
    }
}

// Whether each node is up, nothing is in flight there, and it has the journal of its place.
fn are_these(nodes: &[Node], journals: &[List<Record>]) -> bool {
    if nodes.len() != journals.len() {
        return false;
    }
    for (node, journal) in nodes.iter().zip(journals) {
        if !node.up || node.flight.is_some() || node.journal.as_slice() != journal.as_slice() {
            return false;
        }
    }
    true
}

/// `stands LEDGER`: the journals are those of the ledger, all nodes are up, and nothing is in flight.
pub fn stands(state: &State, world: &World, words: &[&str], told: &mut Told) {
    let journals = state.journals(words, 0, told);
    told.check_yes(are_these(world.nodes.as_slice(), journals.as_slice()));
}

/// `recovered yes`: whether no lane is open.
pub fn recovered(world: &World, words: &[&str], told: &mut Told) {
    let wanted = told.word_at(words, 0);
    told.check_is(wanted, is_recovered(world.nodes.as_slice(), &world.shape));
}
