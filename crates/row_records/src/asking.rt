// Calls at a shard as rows spell them.
use crate::known::Known;
use crate::records::part;
use crate::rest;
use crate::told::Told;
use cbdc_types::{FinishCall, ForgetCall, LockCall, Stamp};

// The cause behind the word `cause`, which stands behind the batch of a call.
fn cause_of(words: &[&str], told: &mut Told) -> Stamp {
    told.expect(words, 2, "cause");
    Stamp(told.number_at(words, 3))
}

/// The call to lock `LANE NUMBER cause STAMP NAME@PLACE..` at a node.
pub fn lock_call(known: &Known, node: u32, words: &[&str], told: &mut Told) -> Option<LockCall> {
    let shape = told.given(known.shape())?;
    Some(LockCall {
        batch: told.batch_at(words, 0),
        part: part(known, &shape, node, rest(words, 4), told),
        cause: cause_of(words, told),
    })
}

/// The call to finish `LANE NUMBER cause STAMP +..`.
pub fn finish_call(words: &[&str], told: &mut Told) -> FinishCall {
    FinishCall {
        batch: told.batch_at(words, 0),
        decisions: told.decisions(rest(words, 4)),
        cause: cause_of(words, told),
    }
}

/// The call to forget `LANE NUMBER cause STAMP`.
pub fn forget_call(words: &[&str], told: &mut Told) -> ForgetCall {
    told.at_most(words, 4);
    ForgetCall {
        batch: told.batch_at(words, 0),
        cause: cause_of(words, told),
    }
}
