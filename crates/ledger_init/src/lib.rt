//! Making a ledger: the first records of its nodes, on disks that are not in use.
#![tactic(auto)]

mod dealing;
mod making;
mod writing;

pub use making::{Made, make_ledger};
