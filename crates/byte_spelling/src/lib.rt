//! The one spelling of numbers, lists and transactions in bytes: definitions alone, for the ledger's definitions and for the code that reads and writes bytes.
#![tactic(auto)]
