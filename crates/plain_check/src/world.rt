// The world.
ghost use Rattle.std.specs.Prelude.{◌≡◌, ℕ, List as Items, map, take, OnOk, OnErr, IfOk};
ghost use Rattle.cbdc_model.specs.Records.{Digest};
ghost use Rattle.cbdc_model.specs.World.{init, first_record, first_node, Step, Run};
ghost use Rattle.plain_check.specs.Events.{event_in, mint_by};

use crate::Node;
use crate::event_causes::header_at;
use crate::events::Event;
use crate::turns::happen;
use cbdc_types::{Hash, List, NodeId, Record, Shape};
use same_records::hashes_on;
use std::alloc::{AllocError, Global};

/// A ledger of a shape and a mint: its nodes, the coordinators first.
#[derive(Drop)]
pub struct World {
    pub shape: Shape,
    pub genesis: Hash,
    pub nodes: Vec<Node>,
}

// A node's first record.
fn first_of(
    alloc: Global,
    shape: &Shape,
    genesis: &Hash,
    hashes: &[Hash],
    node: NodeId,
) -> Result<Record, AllocError>
    ensures { IfOk result (λ r. r ≡ first_record shape.now (mint_by genesis.now hashes.now) node) }
{
    let header = header_at(shape, genesis, node);
    if node.0 < shape.coordinators() {
        return Ok(Record::Start { header });
    }
    Ok(Record::Genesis {
        header,
        hashes: hashes_on(alloc, shape, node.0 - shape.coordinators(), hashes)?,
    })
}

// A node as it is at first.
fn node_of(
    alloc: Global,
    shape: &Shape,
    genesis: &Hash,
    hashes: &[Hash],
    node: NodeId,
) -> Result<Node, AllocError>
    ensures { IfOk result (λ n. n ≡ first_node shape.now (mint_by genesis.now hashes.now) node) }
{
    let mut journal = List::new(alloc);
    journal.push(first_of(alloc, shape, genesis, hashes, node)?)?;
    Ok(Node {
        journal,
        up: true,
        flight: None,
    })
}

impl World {
    /// The first world of a mint, by its id and the hashes of its coins.
    pub fn new(
        alloc: Global,
        shape: &Shape,
        genesis: &Hash,
        hashes: &[Hash],
    ) -> Result<World, AllocError>
        ensures nodes { IfOk result (λ w. w.nodes.items ≡ init shape.now (mint_by genesis.now hashes.now)) }
        ensures mint { IfOk result (λ w. (w.shape ≡ shape.now) × (w.genesis ≡ genesis.now)) }
    {
        let mut nodes = Vec::new(alloc);
        for n in 0..shape.node_count() {
            nodes.push(node_of(alloc, shape, genesis, hashes, NodeId(n))?)?;
        }
        Ok(World {
            shape: *shape,
            genesis: *genesis,
            nodes,
        })
    }

    /// The world after an event. An event that isn't allowed leaves it as it is, and so does running out of memory.
    pub fn step(&mut self, alloc: Global, event: &Event) -> Result<(), AllocError>
        ensures ok { (hashes : Items Digest)
            → OnOk result (Step self.old.shape (mint_by self.old.genesis hashes) self.old.nodes.items
            (event_in event.now) self.new.nodes.items) }
        ensures err { OnErr result (self.new.nodes.items ≡ self.old.nodes.items) }
        ensures mint { (self.new.shape ≡ self.old.shape) × (self.new.genesis ≡ self.old.genesis) }
    {
        let shape = self.shape;
        let genesis = self.genesis;
        happen(alloc, self.nodes.as_mut_slice(), &shape, &genesis, event)
    }

    /// The world after events in turn. Where memory runs out it is the world after the first of them.
    pub fn run(&mut self, alloc: Global, events: &[Event]) -> Result<(), AllocError>
        ensures ok { (hashes : Items Digest)
            → OnOk result (Run self.old.shape (mint_by self.old.genesis hashes) self.old.nodes.items
            (map event_in events.now) self.new.nodes.items) }
        ensures err { (hashes : Items Digest) → OnErr result ((n : ℕ)
            × Run self.old.shape (mint_by self.old.genesis hashes) self.old.nodes.items
            (map event_in (take n events.now)) self.new.nodes.items) }
        ensures mint { (self.new.shape ≡ self.old.shape) × (self.new.genesis ≡ self.old.genesis) }
    {
        for event in events {
            self.step(alloc, event)?;
        }
        Ok(())
    }
}
