// The laws of an audit over all journals of a ledger: what the journals begin with, and what a sound verdict says of the money. Nothing of them runs.
ghost use Rattle.audit.specs.AccountLaws.{BegunLaw, CausedListsLaw, AccountLaw};

/// The journals of a ledger's nodes begin with the first records of some mint with the ledger's id: a Start at each coordinator, and at
/// each shard a Genesis with hashes that lie there.
pub fn begun_law()
    ensures { BegunLaw }
{}

/// Where the rows of a ledger's journals, in whatever order, are each caused by those before, each record is after those of its journal
/// and was caused by beginnings of the journals: one fact for each record, by which the journals have a history by stamp and node on top
/// of the first rows.
pub fn caused_lists_law()
    ensures { CausedListsLaw }
{}

/// Where an audit finds the journals of a ledger sound, which begin as the mint's, no hashes clash and each committed transaction has an
/// input, all money is accounted for.
pub fn account_law()
    ensures { AccountLaw }
{}
