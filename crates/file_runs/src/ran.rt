// What a run of client files comes to.
use crate::waves::Wave;
use recovery::ResumedBatch;

/// What a run came to: the batches that an earlier one had left open, in rising order of their lanes, its files in order, and how
/// many hashes are unspent then.
#[derive(Drop)]
pub struct Ran {
    pub resumed: Vec<ResumedBatch>,
    pub waves: Vec<Wave>,
    pub unspent: u64,
}
