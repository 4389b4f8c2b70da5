// Places of records in journals.
use cbdc_types::List;

/// Where a record stands: in the journal of this node, behind so many others.
#[derive(Clone, Copy, Debug, PartialEq, Eq)]
pub struct Place {
    pub node: u32,
    pub index: u64,
}

/// The places of all records of some journals in one order, the oldest first.
pub type History = List<Place>;
