// What a cut is.
use audit::History;
use cbdc_types::Stamp;

/// A stamp, and the places of all records up to it.
#[derive(Drop)]
pub struct Cut {
    pub stamp: Stamp,
    pub history: History,
}
