//! `status`: tells what the ledger on a rack knows of hashes.
#![tactic(auto)]

mod looking;

pub use looking::status;
