//! `init`: makes the ledger of a mint on the disks of a rack.
#![tactic(auto)]

mod initial;

pub use initial::init;
