// What the answers of a phase come to.
ghost use Rattle.std.specs.Prelude.{◌≡◌, ◌≤◌, [], length, max, MatchResult};
ghost use Rattle.std.specs.Vec.{vec_capacity};
ghost use Rattle.lane_driver.specs.Calls.{shard};
ghost use Rattle.lane_driver.specs.Gathering.{Gathered, FirstFault, IsLatest};

use cbdc_types::{List, LockCall, NodeFault, Replied, Replies, ShardReplies, Stamp};
use thiserror::Error;

/// The first shard that did not do what was asked, and why.
#[derive(Clone, Copy, Debug, PartialEq, Eq, Error)]
#[error("shard {shard}: {fault}")]
pub struct ShardFault {
    pub shard: u32,
    pub fault: NodeFault,
}

/// The replies by shard, or the first fault. There is room for the replies.
pub fn gather(
    calls: &[(u32, LockCall)],
    answers: Vec<Result<Replied, NodeFault>>,
    mut replies: Vec<ShardReplies>,
) -> Result<Replies, ShardFault>
    requires as_many { length answers.items ≡ length calls.now }
    requires empty { replies.items ≡ [] }
    requires room { length calls.now ≤ vec_capacity replies }
    ensures { MatchResult result (Gathered calls.now answers.items)
        (λ e. FirstFault shard calls.now answers.items e.shard e.fault) }
{
    let mut place = 0;
    for answer in answers {
        let shard = calls[place].0;
        let replied = match answer {
            Ok(replied) => replied,
            Err(fault) => return Err(ShardFault { shard, fault }),
        };
        replies.push_reserved(ShardReplies {
            shard,
            replies: replied.replies,
            stamp: replied.stamp,
        });
        place += 1;
    }
    Ok(List::from_vec(replies))
}

// The later of two stamps.
fn later(one: Stamp, other: Stamp) -> Stamp
    ensures { result ≡ max one other }
{
    Stamp(one.0.max(other.0))
}

/// The greatest stamp of the answers, or the first fault.
#[tactic(auto, using(crate::proofs::Greatest::latest_steps))]
pub fn latest<C>(
    calls: &[(u32, C)],
    answers: &[Result<Stamp, NodeFault>],
) -> Result<Stamp, ShardFault>
    requires { length answers.now ≡ length calls.now }
    ensures { MatchResult result (IsLatest answers.now)
        (λ e. FirstFault shard calls.now answers.now e.shard e.fault) }
{
    let mut latest = Stamp(0);
    for (place, answer) in answers.iter().enumerate() {
        match answer {
            Ok(stamp) => latest = later(latest, *stamp),
            Err(fault) => {
                return Err(ShardFault {
                    shard: calls[place].0,
                    fault: *fault,
                });
            }
        }
    }
    Ok(latest)
}
