// What changes at a node.
ghost use Rattle.std.specs.Prelude.{◌≡◌, ◌<◌, ◌↔◌, true, false, None, IsTrue, OnOk, OnErr, length, is_some, slice_set};
ghost use Rattle.cbdc_model.specs.World.{journals, node_at, flushed, IsQuiet};

use crate::Node;
use cbdc_types::{List, NodeId, Record};
use std::alloc::{AllocError, Global};
use std::mem;

/// Whether the node is up with nothing in flight.
pub fn is_quiet(nodes: &[Node], node: NodeId) -> bool
    ensures { IsTrue result ↔ IsQuiet nodes.now node }
{
    match nodes.get(node.0 as usize) {
        Some(own) => own.up && own.flight.is_none(),
        None => false,
    }
}

/// Whether the node is up.
pub fn is_up(nodes: &[Node], node: NodeId) -> bool
    ensures { IsTrue result ↔ ((node < length nodes.now) × ((node_at nodes.now node).up ≡ true)) }
{
    match nodes.get(node.0 as usize) {
        Some(own) => own.up,
        None => false,
    }
}

/// Whether the node is down.
pub fn is_down(nodes: &[Node], node: NodeId) -> bool
    ensures { IsTrue result ↔ ((node < length nodes.now) × ((node_at nodes.now node).up ≡ false)) }
{
    match nodes.get(node.0 as usize) {
        Some(own) => !own.up,
        None => false,
    }
}

/// Whether a record is in flight at the node.
pub fn is_writing(nodes: &[Node], node: NodeId) -> bool
    ensures { IsTrue result ↔ (is_some (node_at nodes.now node).flight ≡ true) }
{
    match nodes.get(node.0 as usize) {
        Some(own) => own.flight.is_some(),
        None => false,
    }
}

/// Puts a node up with its journal as it is, and this in flight.
pub fn set_up(nodes: &mut [Node], node: NodeId, flight: Option<Record>)
    requires { node < length nodes.old }
    ensures { nodes.new ≡ slice_set nodes.old node
        (record { journal = journals nodes.old node; up = true; flight = flight }) }
{
    let own = &mut nodes[node.0 as usize];
    own.up = true;
    own.flight = flight;
}

/// Puts a node down with its journal as it is: what was in flight is lost.
pub fn lose(nodes: &mut [Node], node: NodeId)
    requires { node < length nodes.old }
    ensures { nodes.new
        ≡ slice_set nodes.old node (record { journal = journals nodes.old node; up = false; flight = None }) }
{
    let own = &mut nodes[node.0 as usize];
    own.up = false;
    own.flight = None;
}

// Puts what is in flight at the journal's end. Where memory runs out the node is as before.
fn write_flight(alloc: Global, own: &mut Node) -> Result<(), AllocError>
    ensures ok { OnOk result (own.new
        ≡ record { journal = flushed own.old.flight own.old.journal; up = own.old.up; flight = None }) }
    ensures err { OnErr result (own.new ≡ own.old) }
{
    let Some(r) = own.flight.take() else {
        return Ok(());
    };
    let mut items = mem::replace(&mut own.journal, List::new(alloc)).into_vec();
    match items.insert(0, r) {
        Ok(()) => {
            own.journal = List::from_vec(items);
            Ok(())
        }
        Err(failed) => {
            own.journal = List::from_vec(items);
            own.flight = Some(failed.value);
            Err(AllocError)
        }
    }
}

/// Puts what is in flight at the end of a node's journal, and leaves the node up or down. Where memory runs out the
/// nodes are as before.
pub fn land(alloc: Global, nodes: &mut [Node], node: NodeId, up: bool) -> Result<(), AllocError>
    requires { node < length nodes.old }
    ensures ok { OnOk result (nodes.new ≡ slice_set nodes.old node (record {
      journal = flushed
          (node_at nodes.old node).flight (journals nodes.old node);
      up = up;
      flight = None;
    })) }
    ensures err { OnErr result (nodes.new ≡ nodes.old) }
{
    let own = &mut nodes[node.0 as usize];
    write_flight(alloc, own)?;
    own.up = up;
    Ok(())
}
