// The outcomes of a batch by its shards' replies.
ghost use Rattle.std.specs.Prelude.{◌≡◌, ◌≤◌, ◌<◌, ◌^◌, length, vec_len, vec_capacity, Some, [], All};
ghost use Rattle.cbdc_model.specs.Records.{Shape};
ghost use Rattle.cbdc_model.specs.Grammar.{IsOutcome};
ghost use Rattle.cbdc_model.specs.Outcomes.{outcome_by};
ghost use Rattle.coord_core.specs.Hashes.{NamesBatch, AllNameBatches};
ghost use Rattle.coord_core.specs.Decided.{replied_outcomes, combined_outcomes, latest_reply, ShardsRise, StampsBelow};

use cbdc_types::{Hash, Outcome, Reply, ShardReplies};

// The outcome with one shard's reply, given that of the greater shards.
fn outcome_with(shard: u32, reply: &Reply, rest: Outcome) -> Outcome
    ensures value { result ≡ outcome_by (Some reply.now) shard rest }
    ensures grammar { (K : Shape) → shard < K.shards → NamesBatch K reply.now → IsOutcome K rest
        → IsOutcome K result }
{
    match *reply {
        Reply::Held => rest,
        Reply::Missing(x) => Outcome::Missing(shard, Hash(x.0)),
        Reply::Locked(x, by) => Outcome::Locked(shard, Hash(x.0), by),
    }
}

// Takes one shard's replies into the outcomes.
fn tell(shard: u32, masks: &[u64], replies: &[Reply], outcomes: &mut Vec<Outcome>)
    requires limit { shard < 64 }
    requires same_length { vec_len outcomes.old ≡ length masks.now }
    ensures items { outcomes.new.items ≡ replied_outcomes shard masks.now replies.now outcomes.old.items }
    ensures same_length { vec_len outcomes.new ≡ length masks.now }
    ensures grammar { (K : Shape) → shard < K.shards → All (NamesBatch K) replies.now
        → All (IsOutcome K) outcomes.old.items → All (IsOutcome K) outcomes.new.items }
{
    let mut next = 0;
    for k in 0..masks.len() {
        if next < replies.len() && (masks[k] >> shard) & 1 == 1 {
            outcomes[k] = outcome_with(shard, &replies[next], outcomes[k]);
            next += 1;
        }
    }
}

/// Puts the outcomes of all transactions into an empty vector that has room for them.
pub(crate) fn combine(masks: &[u64], replies: &[ShardReplies], outcomes: &mut Vec<Outcome>)
    requires empty { outcomes.old.items ≡ [] }
    requires room { length masks.now ≤ vec_capacity outcomes.old }
    requires rising { ShardsRise 0 64 replies.now }
    ensures value { outcomes.new.items ≡ combined_outcomes masks.now replies.now }
    ensures grammar { (K : Shape) → ShardsRise 0 K.shards replies.now → AllNameBatches K replies.now
        → All (IsOutcome K) outcomes.new.items }
{
    for _ in masks {
        outcomes.push_reserved(Outcome::Held);
    }
    for i in (0..replies.len()).rev() {
        tell(
            replies[i].shard,
            masks,
            replies[i].replies.as_slice(),
            outcomes,
        );
    }
}

/// The greatest of the stamp and those of the replies.
pub(crate) fn latest_stamp(last: u64, replies: &[ShardReplies]) -> u64
    requires last { last < 2 ^ 63 }
    requires earlier { StampsBelow (2 ^ 63) replies.now }
    ensures value { result ≡ latest_reply last replies.now }
    ensures bound { result < 2 ^ 63 }
{
    let mut greatest = last;
    for r in replies {
        greatest = greatest.max(r.stamp.0);
    }
    greatest
}
