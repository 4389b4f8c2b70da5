//! Batches that an earlier run left open are taken to their end.
//!
//! - Open: a shard may also run out of memory at a Lock that stands already, since its answer is a copy: so `resume` of a prepared batch may end
//!   with Memory where no Lock is missing.
//! - Open: that of several lanes the ports are alone: a port lets records of all lanes come that it is not called for, those of the list's later
//!   lanes too. The program resumes one lane at a call, since its ports are turned to one lane.
#![tactic(auto)]

mod driving;
mod planning;
mod plans;
mod resumed;
mod resuming;
mod whole;

pub use planning::plan;
pub use plans::Plan;
pub use resumed::{Resumed, ResumedBatch};
pub use whole::resume;
