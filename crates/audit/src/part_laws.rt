// What the audit of a part says of a kept ledger. The law has no body that runs.
ghost use Rattle.audit.specs.PartLaws.{KeptPartLaw};

/// Of a kept history in which no hashes clash an audit of a part finds nothing wrong: its numbers are those of the book of what is committed there,
/// and the value is what was minted.
pub fn kept_part_law()
    ensures { KeptPartLaw }
{}
