// What holds of every journal.
ghost use Rattle.audit.specs.OrderLaws.{RisesLaw};

/// Stamps rise along the journal of a node, so a merge of such journals is in order.
pub fn rises_law()
    ensures { RisesLaw }
{}
