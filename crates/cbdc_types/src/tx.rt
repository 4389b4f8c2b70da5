// Transactions.
use base_types::{Hash, List};

/// A place of an output: the id of the transaction that made it, and its index there.
#[derive(Clone, Copy, Debug, PartialEq, Eq)]
pub struct OutPoint {
    pub tx: Hash,
    pub index: u64,
}

/// An output: the commitment to a witness program, and a value.
#[derive(Clone, Copy, Debug, PartialEq, Eq)]
pub struct Output {
    pub program: Hash,
    pub value: u64,
}

/// What an output is, which the first 16 bytes of its program say.
#[derive(Clone, Copy, Debug, PartialEq, Eq)]
pub enum Kind {
    /// All of them are 254: its value is what may still be issued.
    Permit,
    /// All of them are 255: its value is redeemed, and it is never spent.
    Burn,
    /// All other outputs: its value is money.
    Money,
}

/// An input: an outpoint, and the output that it claims to be there.
#[derive(Clone, Copy, Debug, PartialEq, Eq)]
pub struct Input {
    pub point: OutPoint,
    pub output: Output,
}

/// A transaction as a client hands it in.
#[derive(Clone, Debug, PartialEq, Eq, Drop)]
pub struct FullTx {
    pub inputs: List<Input>,
    pub outputs: List<Output>,
    pub witnesses: List<List<u8>>,
}

/// A transaction as coordinators and shards see it: its id and the hashes of its coins.
#[derive(Clone, Debug, PartialEq, Eq, Drop)]
pub struct CompactTx {
    pub id: Hash,
    pub inputs: List<Hash>,
    pub outputs: List<Hash>,
}

/// The outputs that a ledger begins with.
pub type Mint = List<Output>;

/// Transactions that are decided together.
pub type Batch = List<CompactTx>;
