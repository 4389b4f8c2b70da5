//! A node's journal as records: their bytes, both ways; read once when it is opened, kept in memory, and longer by one at each append.
//!
//! - Open: content holds for disks that tell it. The nodes use `write` and `keep`, and none `append`.
//! - Tested in `piece_rows` (`records.rows`): the bytes and sizes of the records of one batch, the longest replies and outcomes, bodies that are no
//!   records. In `node_rows` (`journals.rows`): a record that `append` puts behind the first one, and one that doesn't fit.
#![tactic(auto)]

mod fault;
mod laws;
mod log;
mod measure;
mod opening;
mod reading;
mod sizes;
mod writing;

pub use fault::RecordFault;
pub use laws::{one_body_law, read_back, size_law};
pub use log::{LogFault, RecordLog};
pub use opening::{NoLog, open_records};
pub use reading::{read_first, read_record};
pub use sizes::size_of_record;
pub use writing::write_record;
