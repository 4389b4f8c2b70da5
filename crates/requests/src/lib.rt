//! What the words of the command line ask for, and why they are refused.
#![tactic(auto)]

use base_types::{Hash, Shape};
use thiserror::Error;

/// Why words are refused.
#[derive(Clone, Copy, Debug, PartialEq, Eq, Error)]
pub enum WordsFault {
    /// They are outside the command line's form.
    #[error("the words are outside the command line's form")]
    Bad,
    #[error("out of memory")]
    Memory,
}

/// A word that names a file, and its place among the words. The program's name has the place 0.
#[derive(Clone, Copy, Debug)]
pub struct FileWord<'a> {
    pub name: &'a str,
    pub place: u64,
}

/// How client files are run, where words say more than which.
#[derive(Clone, Copy, Debug)]
pub struct RunOptions {
    /// How many times more each shard call of a new batch is made, 0 to 3.
    pub repeats: u32,
}

/// How a workload is run, where words say more than which.
#[derive(Clone, Copy, Debug)]
pub struct GenOptions {
    /// How many disks beside its own each shard writes to, 0 to 3.
    pub replicas: u32,
    /// An auditor looks at the nodes while the lanes run.
    pub watch: bool,
}

/// What the words ask for.
#[derive(Drop)]
pub enum Request<'a> {
    /// Make a ledger of this shape, with the outputs of a file.
    Init {
        shape: Shape,
        mint: FileWord<'a>,
    },
    /// Run the transactions of client files, one file after another.
    Run {
        verdicts: FileWord<'a>,
        clients: Vec<FileWord<'a>>,
        options: RunOptions,
    },
    /// Finish the batches that are open.
    Recover,
    /// Tell what is known of hashes.
    Status {
        hashes: Vec<Hash>,
    },
    /// Check the journals against a mint and the transactions of client files.
    Audit {
        mint: FileWord<'a>,
        clients: Vec<FileWord<'a>>,
    },
    /// Make the workload of this seed and so many transactions, and run and check it over nodes in memory.
    Gen {
        shape: Shape,
        seed: u64,
        count: u32,
        options: GenOptions,
    },
    /// Print this text to the standard output, and do nothing else.
    Show(String),
}
