//! What the submissions of a client file send to a lane, checked as the lane asks for it, or ahead of it by a sentinel in a thread of its own.
//!
//! - What is true of a message is what its type says. Nothing is promised of what the channel delivers: a lane computes whatever does not come.
//! - Tested in `lock_rows`: what is sent of three submissions and of 67, what the lane gets with and without it, that it asks for no verdict anew
//!   on what was sent or what `rule_ahead` found, and that a sentinel ends whose source has let go of it. Tested in `threads.rows`: that a lane
//!   waits for its sentinel. What `LaneSource` gives is a clause.
#![tactic(auto)]

mod ahead;
mod behind;
mod feeding;
mod file;
mod ruled;
mod source;

pub use ahead::Ahead;
pub use behind::checks_of;
pub use feeding::{Feeder, feed, pipe};
pub use file::{Deals, FileOf};
pub use ruled::{RuledAt, rule_ahead, rule_at};
pub use source::LaneSource;
