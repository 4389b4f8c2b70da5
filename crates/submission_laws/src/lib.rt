//! What becomes of the sound submissions of a run, and what a run of a workload comes to where no two of its outputs share a hash: laws, which have no
//! body that runs.
#![tactic(auto)]

mod workload_run;

ghost use Rattle.submission_laws.specs.Free.{FreeConfirmedLaw};
ghost use Rattle.submission_laws.specs.Settled.{SubmissionSettledLaw};

pub use workload_run::whole_law;

/// Each sound submission has its one place in one new Prepare and nothing else has one. It is told as confirmed exactly where
/// every shard held it, else with the least shard that refused it, and the hash and the cause of that shard's reply.
///
/// Behind a run from kept journals to kept journals: each sound submission has its one place in one new Prepare of its lane, which has its compact
/// form there, and nothing else has one. Its coordinator wrote down the outcome that the shards' replies give: Held exactly where every shard that
/// it concerns held it, else naming the least that did not, with the hash and cause of its reply. Each Lock has the replies that the journal before
/// it gives, and what is reported of the submission is that place's batch and outcome.
pub fn settled_law()
    ensures { SubmissionSettledLaw }
{}

/// A sound submission whose inputs are unspent when its file's wave begins, and which no other sound submission of its file
/// spends, is confirmed.
pub fn free_confirmed_law()
    ensures { FreeConfirmedLaw }
{}
