// Worlds of nodes.
ghost use Rattle.std.specs.Prelude.{◌≡◌, ◌<◌, ◌≤◌, ◌↔◌, ℕ, true, None, IsTrue, length};
ghost use Rattle.cbdc_model.specs.Ranges.{home_of};
ghost use Rattle.cbdc_model.specs.Slots.{slot, Idle};
ghost use Rattle.cbdc_model.specs.World.{node_at, journals, AreIdle, IsRecovered};

use crate::nexts::is_idle;
use cbdc_types::{LaneId, List, Record, Shape};
use same_records::{home_of, slot_of};
use std::marker::Model;

/// A node: its journal, whether it is up, and a record that a fault or a crash may have left or not. Contracts see the
/// definitions' node.
#[derive(Drop)]
pub struct Node {
    pub journal: List<Record>,
    pub up: bool,
    pub flight: Option<Record>,
}

impl Model for Node {
    ghost use Rattle.cbdc_model.specs.World.{Node as ModelNode};

    ghost Value = { ModelNode };

    ghost view = { λ n. record { journal = n.journal; up = n.up; flight = n.flight } };
}

/// The journal of a node, nothing past the last one.
pub fn journal_in<'a>(world: &'a [Node], node: u32) -> &'a [Record]
    ensures { result.now ≡ journals world.now node }
{
    match world.get(node as usize) {
        Some(own) => own.journal.as_slice(),
        None => &[],
    }
}

// Whether a node is up with nothing in flight.
fn is_quiet(own: &Node) -> bool
    ensures { IsTrue result ↔ ((own.now.up ≡ true) × (own.now.flight ≡ None)) }
{
    own.up && own.flight.is_none()
}

// Whether the lanes below n are idle at their coordinators.
fn are_idle_below(world: &[Node], shape: &Shape, n: u32) -> bool
    ensures { IsTrue result
        ↔ ((lane : ℕ) → lane < n → (slot (journals world.now (home_of shape.now lane)) lane).phase ≡ Idle) }
{
    if n == 0 {
        return true;
    }
    let lane = LaneId(n - 1);
    let own = journal_in(world, home_of(shape, lane).0);
    is_idle(slot_of(own, lane).phase) && are_idle_below(world, shape, n - 1)
}

/// Whether every lane is idle at its coordinator.
pub fn are_lanes_idle(world: &[Node], shape: &Shape) -> bool
    ensures { IsTrue result ↔ AreIdle shape.now (journals world.now) }
{
    are_idle_below(world, shape, shape.lane_count())
}

// Whether the nodes below n are up with nothing in flight.
fn are_quiet_below(world: &[Node], n: usize) -> bool
    requires { n ≤ length world.now }
    ensures { IsTrue result
        ↔ ((k : ℕ) → k < n → ((node_at world.now k).up ≡ true) × ((node_at world.now k).flight ≡ None)) }
{
    if n == 0 {
        return true;
    }
    is_quiet(&world[n - 1]) && are_quiet_below(world, n - 1)
}

/// Whether every node is up, nothing is in flight, and every lane is idle.
pub fn is_recovered(world: &[Node], shape: &Shape) -> bool
    ensures { IsTrue result ↔ IsRecovered shape.now world.now }
{
    are_quiet_below(world, world.len()) && are_lanes_idle(world, shape)
}
