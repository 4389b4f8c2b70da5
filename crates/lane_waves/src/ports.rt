// A lane's seats of the shards, as ports, and back.
ghost use Rattle.std.specs.Prelude.{◌≡◌, ◌≤◌, ◌<◌, ◌+◌, ◌^◌, [], length, reverse, vec_capacity};
ghost use Rattle.lane_waves.specs.Ports.{AreSeated, ArePorts, AreNumbered, seats_of};

use cbdc_types::NodeId;
use node_lock::{Guarded, Seat};
use port_sets::{Locks, Shard, ShardSeat, SharedShard};
use std::marker::PhantomData;
use std::sync::Wait;

/// A port over each seat, and the list that these stood in, which is empty.
pub fn ports_over<'a, W: Wait, S: Shard, B: Locks>(
    rt: &'a W,
    first: u32,
    locks: &'a [Guarded<SharedShard<S>>],
    mut seats: Vec<Seat<SharedShard<S>>>,
    mut ports: Vec<ShardSeat<'a, W, S, B>>,
) -> (Vec<ShardSeat<'a, W, S, B>>, Vec<Seat<SharedShard<S>>>)
    requires seated { AreSeated locks.now seats.items }
    requires small { first + length locks.now < 2 ^ 32 }
    requires empty { ports.items ≡ [] }
    requires room { length seats.items ≤ vec_capacity ports }
    ensures ports { ArePorts locks.now seats.items result.0.items }
    ensures numbered { AreNumbered first result.0.items }
    ensures empty { (result.1.items ≡ []) × (vec_capacity result.1 ≡ vec_capacity seats) }
{
    let mut left = locks;
    while let Some(seat) = seats.pop() {
        let Some((guarded, before)) = left.split_last() else {
            unreachable!()
        };
        ports.push_reserved(ShardSeat {
            rt,
            node: NodeId(first + before.len() as u32),
            guarded,
            seat,
            of: PhantomData,
        });
        left = before;
    }
    ports.reverse();
    (ports, seats)
}

/// The seats back, in order.
pub fn seats_back<'a, W: Wait, S: Shard, B: Locks>(
    mut ports: Vec<ShardSeat<'a, W, S, B>>,
    mut seats: Vec<Seat<SharedShard<S>>>,
) -> Vec<Seat<SharedShard<S>>>
    requires empty { seats.items ≡ [] }
    requires room { length ports.items ≤ vec_capacity seats }
    ensures { result.items ≡ seats_of ports.entry.items }
{
    while let Some(port) = ports.pop() {
        let ShardSeat {
            rt: _,
            node: _,
            guarded: _,
            seat,
            of: _,
        } = port;
        seats.push_reserved(seat);
    }
    ports.destroy_empty();
    seats.reverse();
    seats
}
