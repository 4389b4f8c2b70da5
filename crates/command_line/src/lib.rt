//! The words of the command line: the program's command as clap reads it, the same as data, and what words ask for.
//!
//! - Show comes only without a mistake (`asked_law`). That clap takes just these words, whatever they are, is `taken_law`. The laws have no body
//!   that runs.
//! - The texts of help are no data of `hamilton`; rows test them.
//! - Open: when memory runs out is not bounded.
//! - Tested in `piece_rows` (`words.rows`).
#![tactic(auto)]

mod form;
mod help;
mod laws;
mod matching;
mod places;
mod request;
mod values;

pub use form::program;
pub use laws::{asked_law, one_request_law, see_request, taken_law};
pub use request::parse;
