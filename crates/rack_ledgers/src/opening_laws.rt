// What bytes say as a journal. The laws have no body that runs.
ghost use Rattle.rack_ledgers.specs.Once.{OpensOnceLaw};
ghost use Rattle.rack_ledgers.specs.Refusals.{OneRefusalLaw, NoRefusalLaw};

/// A file opens to one journal at most, of one header.
///
/// A disk's bytes open to one header and one journal.
pub fn opens_once_law()
    ensures { OpensOnceLaw }
{}

/// A shard's disk is refused in one way at most, and in none where it holds a shard's journal and has the room; and so is a coordinator's.
pub fn one_answer_law()
    ensures one { OneRefusalLaw }
    ensures none { NoRefusalLaw }
{}
