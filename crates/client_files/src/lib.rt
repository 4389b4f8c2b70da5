//! Input files: their bytes, and the transactions or minted outputs in them.
//!
//! - Tested in `piece_rows` (`files.rows`): small client files and mints, and each kind of fault at its place; a file longer than one read, and a
//!   name that is not there.
#![tactic(auto)]

mod clients;
mod fault;
mod input;
mod mint;
mod places;
mod stream;
mod window;

pub use clients::read_clients;
pub use fault::{BadFile, FetchFault, FileFault, StreamFault};
pub use input::fetch;
pub use mint::read_mint;
pub use stream::stream_clients;
