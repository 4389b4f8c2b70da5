//! A ledger on a rack: its nodes opened beside each other, where they must be with a history that is caused, audited, and closed, with their disks
//! put back.
//!
//! - `opens_once_law`, `one_answer_law`, `none_refused_law`, `none_uncaused_law`, `account_law`, `one_verdict_law`: Laws, which have no body that
//!   runs.
#![tactic(auto)]

mod account_laws;
mod asked;
mod at_once;
mod audited;
mod blank;
mod caused;
mod close;
mod first;
mod ledger;
mod lent;
mod nodes;
mod on_disk;
mod open;
mod opening;
mod opening_laws;
mod refusal_laws;
mod slots;

pub use account_laws::{account_law, one_verdict_law};
pub use audited::audit_on;
pub use blank::Blank;
pub use caused::open_caused;
pub use close::close_all;
pub use first::{Wrote, write_first};
pub use ledger::{Nodes, close_nodes};
pub use lent::{lend_logs, lend_shards};
pub use on_disk::OnDisk;
pub use open::{open_all, open_one};
pub use opening::{open_minted, open_nodes};
pub use opening_laws::{one_answer_law, opens_once_law};
pub use refusal_laws::{none_refused_law, none_uncaused_law};
