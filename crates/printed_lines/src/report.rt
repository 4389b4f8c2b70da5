// The result of a submission.
use cbdc_types::{BatchId, Outcome, Refusal};

/// The result of a submission: a sentinel refused it, or it was decided in a batch.
#[derive(Clone, Copy, Debug)]
pub enum Report {
    Refused(Refusal),
    Decided(BatchId, Outcome),
}
