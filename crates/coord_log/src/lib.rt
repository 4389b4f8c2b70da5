//! A coordinator on its disk: its journal, kept in memory as records, and its lanes as the journal leaves them.
//!
//! - `prepare`, `decide`, `discard`, `done`: A crash at any moment of the call leaves the journal from before it or the one behind it, each with
//!   what is in flight or without; each moment where the disk tells its past, else the end of the call.
//! - Which refusal it is, the bytes and the capacity decide: `one_answer_law` of `rack_ledgers`.
//! - Open: content holds for disks that tell it; that `decide`'s outcomes are those of the replies holds where each reply is to its part
//!   (AreRepliesTo).
//! - Tested in `node_rows` (`coordinators.rows`): `open`, the four calls, `phase` and `open_lane`.
#![tactic(auto)]

mod copying;
mod log;
mod opening;
mod writing;

pub use log::CoordLog;
