//! The history of a ledger, its checks and their laws: the records of all journals in one order, by stamp and node; that each is caused by those
//! before it, and what it commits can be spent; what a sound verdict says of the money.
#![tactic(auto)]

mod account;
mod auditing;
mod book;
mod caused;
mod compacting;
mod folding;
mod handed;
mod issuing;
mod known;
mod laws;
mod merging;
mod order_laws;
mod outcomes;
mod part_laws;
mod parts;
mod place;
mod sizes;
mod statuses;
mod verdict;
mod walking;

pub use account::{account_law, begun_law, caused_lists_law};
pub use auditing::audit;
pub use laws::{caused_law, one_verdict_law, ordered_law, unspent_law};
pub use merging::{merge, record_at};
pub use order_laws::rises_law;
pub use part_laws::kept_part_law;
pub use parts::{Part, PartVerdict, audit_part};
pub use place::{History, Place};
pub use verdict::Verdict;
pub use walking::causes;
