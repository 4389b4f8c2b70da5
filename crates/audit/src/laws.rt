// What causes and verdicts give of a ledger.
ghost use Rattle.audit.specs.Walks.{CausedLaw};
ghost use Rattle.audit.specs.Laws.{OneVerdictLaw, OrderedLaw, UnspentLaw};

/// A history of a ledger in which `causes` finds nothing is kept, where each row follows its journal, as in the journals of open
/// nodes, and each Prepare has compact forms of proper submissions. So what the laws of the ledger say of kept histories
/// holds of it.
pub fn caused_law()
    ensures { CausedLaw }
{}

/// A history has at most one verdict. So `audit` answers each one exactly where it holds.
pub fn one_verdict_law()
    ensures { OneVerdictLaw }
{}

/// Records in order, by stamp and then by node, with the journals of a ledger are its history, first records and all. So a merge of the
/// journals gives the ledger's history.
pub fn ordered_law()
    ensures { OrderedLaw }
{}

/// Where an audit finds nothing wrong with a ledger's history, the shards together hold exactly the hashes of the coins of the last book.
/// It asks nothing of transactions that are not committed, and of those that are no more than that they were handed in and spend
/// something: not that witnesses are good or values balanced.
pub fn unspent_law()
    ensures { UnspentLaw }
{}
