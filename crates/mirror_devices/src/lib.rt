//! A disk that is several: each write goes to all of them, and is done once all have done it.
//!
//! - `Mirror` keeps the trait `Disk` (the trait's clauses). What a crash may leave is what it may leave of any of its disks, so whatever holds of every
//!   image of it holds of every image of each.
//! - `MirrorRack` keeps the trait `Rack`: disks in memory that never fail, several for a node.
//! - Tested in `ledger_rows` (`gen.rows`): `gen --replicas` runs over such a rack.
#![tactic(auto)]

mod mirror;
mod mirror_rack;

pub use mirror::Mirror;
pub use mirror_rack::MirrorRack;
