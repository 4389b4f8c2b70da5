//! The definitions of the ledger: what a reader must believe. There is no product code here.
//!
//! - Definitions only, no calls: records, slots, what follows what, folding of transactions, the headline. It is what a reader must believe; no
//!   call here has a clause.
//! - Open: nothing to prove; the rows of `journal_rows` test the definitions by example, but for what bytes open to, which is tested of the
//!   program's own reading (`node_rows`). That a transaction is proper exactly where no reason but a verdict refuses it is a law (`proper_law`),
//!   which no contract cites.
#![tactic(auto)]
