//! What each command prints, as definitions over journals at entry and at exit. Journals are lists whose newest record comes first.
#![tactic(auto)]

mod report;

pub use report::Report;
