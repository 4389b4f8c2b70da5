// What is known of the cut of a ledger at work. The laws have no body that runs.
ghost use Rattle.cut_audit.specs.Laws.{FrontsLaw, CutLaw, PartLaw};

/// Stamps rise along each list that is a beginning of its node's journal in a kept ledger, so that `cut` orders them all.
pub fn fronts_law()
    ensures { FrontsLaw }
{}

/// Where each list is a beginning of its node's journal and none is empty, whatever moments they were taken at, and the journals are kept: the cut
/// is a kept history of the ledger, and what a run of it leaves.
pub fn cut_law()
    ensures { CutLaw }
{}

/// Where no hashes clash either: the committed transactions of the cut fold to a book, whose hashes are those of the three sets, and an audit of the
/// cut with what was handed in finds nothing wrong; its value is what was minted.
pub fn part_law()
    ensures { PartLaw }
{}
