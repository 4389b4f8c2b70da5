// Which locks the seats of a wave are of.
ghost use Rattle.std.specs.Prelude.{ℕ};
ghost use Rattle.node_lock.specs.Seats.{TableId};
ghost use Rattle.port_sets.specs.Seated.{no_table};

use std::marker::Brand;

/// The locks of a wave's nodes, by their numbers. A call at `Brand` picks them.
pub trait Locks {
    /// The lock of each node.
    ghost tables: { ℕ → TableId };
}

impl Locks for Brand {
    ghost tables = { λ n. no_table };
}
