//! `audit`: checks the journals of the ledger on a rack against a mint and the transactions that were handed in.
#![tactic(auto)]

mod auditing;

pub use auditing::{audit, joined};
