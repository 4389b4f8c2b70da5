//! The cut of a ledger at work: of lists of records, one for each node and each a beginning of its journal, whatever moments they were taken at, all
//! records up to a stamp. It is a history of the ledger, so an audit may go over it while lanes run.
//!
//! - `fronts_law`, `cut_law`, `part_law`: Of kept journals the cut is kept, so it is what a run of the ledger leaves; where no hashes clash its book
//!   is made of the three sets, and the value is what was minted. They have no body that runs.
#![tactic(auto)]

mod cuts;
mod cutting;
mod laws;

pub use cuts::Cut;
pub use cutting::cut;
pub use laws::{cut_law, fronts_law, part_law};
