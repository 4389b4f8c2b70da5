// The events, one by one: each changes the nodes where it is allowed, and else nothing.
ghost use Rattle.std.specs.Prelude.{◌≡◌, List as Items, OnOk, OnErr};
ghost use Rattle.cbdc_model.specs.Records.{Digest};
ghost use Rattle.cbdc_model.specs.World.{Step, Begin, End, Crash, Reopen, Repeat};
ghost use Rattle.plain_check.specs.Events.{call_in, event_in, mint_by};

use crate::answers::written;
use crate::event_causes::may_begin;
use crate::events::{Event, ShardCall};
use crate::nodes::{is_down, is_quiet, is_up, is_writing, land, lose, set_up};
use crate::{Node, copy_of_record};
use cbdc_types::{Hash, NodeId, Record, Shape};
use std::alloc::{AllocError, Global};

// A record is begun.
fn begin(
    alloc: Global,
    nodes: &mut [Node],
    shape: &Shape,
    genesis: &Hash,
    node: NodeId,
    r: &Record,
) -> Result<(), AllocError>
    ensures ok { (hashes : Items Digest)
        → OnOk result (Step shape.now (mint_by genesis.now hashes) nodes.old (Begin node r.now) nodes.new) }
    ensures err { OnErr result (nodes.new ≡ nodes.old) }
{
    if !is_quiet(nodes, node) {
        return Ok(());
    }
    if !may_begin(alloc, nodes, shape, genesis, node, r)? {
        return Ok(());
    }
    let flight = copy_of_record(r)?;
    set_up(nodes, node, Some(flight));
    Ok(())
}

// The record in flight goes to the journal's end.
fn end(
    alloc: Global,
    nodes: &mut [Node],
    shape: &Shape,
    genesis: &Hash,
    node: NodeId,
) -> Result<(), AllocError>
    ensures ok { (hashes : Items Digest)
        → OnOk result (Step shape.now (mint_by genesis.now hashes) nodes.old (End node) nodes.new) }
    ensures err { OnErr result (nodes.new ≡ nodes.old) }
{
    if !is_up(nodes, node) || !is_writing(nodes, node) {
        return Ok(());
    }
    land(alloc, nodes, node, true)
}

// The node goes down, and keeps what was in flight or not.
fn crash(
    alloc: Global,
    nodes: &mut [Node],
    shape: &Shape,
    genesis: &Hash,
    node: NodeId,
    kept: bool,
) -> Result<(), AllocError>
    ensures ok { (hashes : Items Digest)
        → OnOk result (Step shape.now (mint_by genesis.now hashes) nodes.old (Crash node kept) nodes.new) }
    ensures err { OnErr result (nodes.new ≡ nodes.old) }
{
    if !is_up(nodes, node) {
        return Ok(());
    }
    if kept {
        return land(alloc, nodes, node, false);
    }
    lose(nodes, node);
    Ok(())
}

// The node is opened again.
fn reopen(nodes: &mut [Node], shape: &Shape, genesis: &Hash, node: NodeId)
    ensures { (hashes : Items Digest)
        → Step shape.now (mint_by genesis.now hashes) nodes.old (Reopen node) nodes.new }
{
    if is_down(nodes, node) {
        set_up(nodes, node, None);
    }
}

// A call is made again.
fn repeat(
    alloc: Global,
    nodes: &mut [Node],
    shape: &Shape,
    genesis: &Hash,
    node: NodeId,
    call: &ShardCall,
) -> Result<(), AllocError>
    ensures ok { (hashes : Items Digest) → OnOk result
        (Step shape.now (mint_by genesis.now hashes) nodes.old (Repeat node (call_in call.now)) nodes.new) }
    ensures err { OnErr result (nodes.new ≡ nodes.old) }
{
    if is_quiet(nodes, node) {
        let flight = written(alloc, nodes, shape, genesis, node, call)?;
        if flight.is_some() {
            set_up(nodes, node, flight);
        }
    }
    Ok(())
}

/// An event happens: where it isn't allowed, and where memory runs out, the nodes are as before.
pub fn happen(
    alloc: Global,
    nodes: &mut [Node],
    shape: &Shape,
    genesis: &Hash,
    event: &Event,
) -> Result<(), AllocError>
    ensures ok { (hashes : Items Digest)
        → OnOk result (Step shape.now (mint_by genesis.now hashes) nodes.old (event_in event.now) nodes.new) }
    ensures err { OnErr result (nodes.new ≡ nodes.old) }
{
    match event {
        Event::Begin(node, r) => begin(alloc, nodes, shape, genesis, *node, r),
        Event::End(node) => end(alloc, nodes, shape, genesis, *node),
        Event::Crash(node, kept) => crash(alloc, nodes, shape, genesis, *node, *kept),
        Event::Reopen(node) => {
            reopen(nodes, shape, genesis, *node);
            Ok(())
        }
        Event::Repeat(node, call) => repeat(alloc, nodes, shape, genesis, *node, call),
    }
}
