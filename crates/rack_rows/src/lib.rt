//! Steps of rows of whole runs, but for the runs themselves: files, disks and points by name, devices in memory that note what a run asks of them,
//! and what is looked at behind it.
#![tactic(auto)]

mod disks;
mod files;
mod looking;
mod noting;
mod ordering;
mod racks;
mod runs;
mod state;
mod steps;
mod verbs;
mod words;

pub use looking::check_run;
pub use noting::{NotingGate, NotingInbox, NotingRack};
pub use runs::{Ran, ended, files_of, gate_of, inbox_of, output_of, owned, rack_of, text_in};
pub use state::{ROOM, State};
pub use steps::{check, do_step, verb_for};
pub use verbs::Verb;
pub use words::count_at;
