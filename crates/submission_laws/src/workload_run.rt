// What a run of a workload comes to where no two of its outputs share a hash: a law, which has no body that runs.
ghost use Rattle.submission_laws.specs.Whole.{WholeLaw};

/// Where no hashes of a workload clash, each of its transactions is confirmed, whatever the order of the lanes' turns. So many
/// hashes are unspent in the end as the number of transactions says, and the totals of an audit are those of the mint and the number.
pub fn whole_law()
    ensures { WholeLaw }
{}
