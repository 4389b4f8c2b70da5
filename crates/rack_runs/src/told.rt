// What a command that resumes tells.
use recovery::ResumedBatch;

/// What a command tells that resumed: the batches that an earlier one had left open, in rising order of their lanes, what its work came
/// to, and how many hashes are unspent then.
#[derive(Drop)]
pub struct Told<T> {
    pub resumed: Vec<ResumedBatch>,
    pub done: T,
    pub unspent: u64,
}
