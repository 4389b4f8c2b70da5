// What a call is answered.
use cbdc_types::{Refused, Replied, Stamp};

/// What a Lock is answered: the replies kept from before with their stamp, those of a new record with its stamp, or a
/// refusal.
#[derive(Drop)]
pub enum LockPlan {
    Kept(Replied),
    Append(Replied),
    Refuse(Refused),
}

/// What a Finish or a Forget is answered: the stamp kept from before, that of a new record, or a refusal.
#[derive(Clone, Copy)]
pub enum StampPlan {
    Kept(Stamp),
    Append(Stamp),
    Refuse(Refused),
}
