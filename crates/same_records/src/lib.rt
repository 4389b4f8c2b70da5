//! Whether hashes, batches, entries, outcomes, outputs, transactions and journals are the same, whether a reply or an outcome is Held, what of a
//! batch lies on a shard, and what a journal says of a batch and of a lane, by looking back. Journals are lists whose newest record comes first.
//!
//! - Tested in `journal_rows`.
#![tactic(auto)]

mod comparing;
mod lookups;
mod parts;
mod records;
mod same;
mod slots;
mod values;

pub use comparing::{
    are_same_hashes, is_same_compact, is_same_entry, is_same_output, is_same_point,
};
pub use lookups::{
    batch_of, is_of, kind_of, last_stamp, lock_of, outcomes_of, record_of, stamp_of, tells_lane,
    txs_of,
};
pub use parts::{
    are_elsewhere, entry_at, hashes_on, home_of, is_concerned, is_entry_at, is_part_from,
};
pub use records::{are_compacts, is_compact, is_journal};
pub use same::{are_answered, are_outcomes, is_batch, is_hash};
pub use slots::{Phase, Slot, slot_of, slot_stamp};
pub use values::{is_held, is_same_batch, is_same_hash, is_won};
