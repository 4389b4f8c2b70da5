// What stands at the end of each command's help: an example, and the statuses that the command ends with. docs/OPERATING.md says what to
// do about each. They are functions, and no clause says what they give: so no proof has to carry a page of text.

pub(crate) fn of_all() -> &'static str {
    "Example:
  hamilton gen 7 1000

docs/OPERATING.md says how a ledger is kept, and what to do about each fault."
}

pub(crate) fn of_init() -> &'static str {
    "Example:
  hamilton init --shards 4 --coordinators 2 --lanes 2 --batch 256 coins.mint

Exit status:
   0  the ledger is made
   2  the command line is wrong
   3  the mint is not in its format, or its values add up to too much
   4  there is a ledger already
   5  a disk has no room for its first record
  10  the mint cannot be read
  11  standard output cannot be written
  12  a disk failed, or another program has it
  13  out of memory"
}

pub(crate) fn of_run() -> &'static str {
    "Example:
  hamilton run --verdicts pay.verdicts pay.client more.client

Exit status:
   0  all files were run
   2  the command line is wrong
   3  a file is not in its format
   4  there is no ledger, or a journal is of another one
   5  a journal has no room left
   6  the journals do not fit together
   7  the ledger's clock is at its end
   8  a journal is damaged
  10  a file cannot be read
  11  standard output cannot be written
  12  a disk failed, or another program has it
  13  out of memory"
}

pub(crate) fn of_recover() -> &'static str {
    "Example:
  hamilton recover

Exit status:
   0  no batch is open
   2  the command line is wrong
   4  there is no ledger, or a journal is of another one
   5  a journal has no room left
   6  the journals do not fit together
   7  the ledger's clock is at its end
   8  a journal is damaged
  11  standard output cannot be written
  12  a disk failed, or another program has it
  13  out of memory"
}

pub(crate) fn of_status() -> &'static str {
    "Example:
  hamilton status e97c160ffc86b033ee2d5c3b607b48c4c2f234816b4853ac108bbcfabc070c60

Exit status:
   0  each hash has its line
   2  the command line is wrong
   4  there is no ledger, or a journal is of another one
   5  a journal has no room left
   8  a journal is damaged
  11  standard output cannot be written
  12  a disk failed, or another program has it
  13  out of memory"
}

pub(crate) fn of_audit() -> &'static str {
    "Example:
  hamilton audit coins.mint pay.client more.client

Exit status:
   0  the journals and what was handed in fit together
   2  the command line is wrong
   3  a file is not in its format
   4  there is no ledger, or a journal is of another one
   5  a journal has no room left
   6  they do not fit together, or a batch is open
   8  a journal is damaged
  10  a file cannot be read
  11  standard output cannot be written
  12  a disk failed, or another program has it
  13  out of memory"
}

pub(crate) fn of_gen() -> &'static str {
    "Example:
  hamilton gen --shards 8 --batch 256 7 1000

Exit status:
   0  the workload was run, and its journals fit together
   2  the command line is wrong
   6  two outputs have one hash
  11  standard output cannot be written
  13  out of memory"
}

// What stands beside this argument in a help text.
pub(crate) fn shards<'a>() -> &'a str {
    "How many shards, 1 to 64"
}

// What stands beside this argument in a help text.
pub(crate) fn coordinators<'a>() -> &'a str {
    "How many coordinators, 1 to 16"
}

// What stands beside this argument in a help text.
pub(crate) fn lanes<'a>() -> &'a str {
    "How many lanes each coordinator has, 1 to 16"
}

// What stands beside this argument in a help text.
pub(crate) fn batch<'a>() -> &'a str {
    "How many transactions a batch has at most, 1 to 1024"
}

// What stands beside this argument in a help text.
pub(crate) fn mint<'a>() -> &'a str {
    "The file of the outputs to begin with"
}

// What stands beside this argument in a help text.
pub(crate) fn verdicts<'a>() -> &'a str {
    "The file of the verdicts on witnesses"
}

// What stands beside this argument in a help text.
pub(crate) fn repeats<'a>() -> &'a str {
    "How many times more each call of a new batch at a shard is made, 0 to 3"
}

// What stands beside this argument in a help text.
pub(crate) fn clients<'a>() -> &'a str {
    "The files of the transactions to run, one after another"
}

// What stands beside this argument in a help text.
pub(crate) fn audit_clients<'a>() -> &'a str {
    "The files of the transactions that were run"
}

// What stands beside this argument in a help text.
pub(crate) fn hashes<'a>() -> &'a str {
    "The hashes to look up, each of 64 hexadecimal digits"
}

// What stands beside this argument in a help text.
pub(crate) fn replicas<'a>() -> &'a str {
    "How many disks beside its own each shard writes to, 0 to 3"
}

// What stands beside this argument in a help text.
pub(crate) fn watch<'a>() -> &'a str {
    "Audits the journals once more while the lanes run"
}

// What stands beside this argument in a help text.
pub(crate) fn seed<'a>() -> &'a str {
    "The number that the workload is made from, 0 to 18446744073709551615"
}

// What stands beside this argument in a help text.
pub(crate) fn count<'a>() -> &'a str {
    "How many transactions the workload has, 1 to 10000"
}

// What stands beside this argument in a help text.
pub(crate) fn topic<'a>() -> &'a str {
    "The command to print the help of"
}

// What the command does, in the first line of its help text.
pub(crate) fn about_init() -> &'static str {
    "Writes the first record of each node"
}

// What the command does, in the first line of its help text.
pub(crate) fn about_gen() -> &'static str {
    "Makes a workload from a number, and runs and checks it in memory"
}

// What the command does, in the first line of its help text.
pub(crate) fn about_run() -> &'static str {
    "Finishes what is open, and runs the transactions of files"
}

// What the command does, in the first line of its help text.
pub(crate) fn about_recover() -> &'static str {
    "Finishes the batches that are open"
}

// What the command does, in the first line of its help text.
pub(crate) fn about_status() -> &'static str {
    "Tells whether hashes are unspent, locked or absent"
}

// What the command does, in the first line of its help text.
pub(crate) fn about_audit() -> &'static str {
    "Checks the journals and what they commit from the first record on"
}

// What the command does, in the first line of its help text.
pub(crate) fn about_help() -> &'static str {
    "Prints this text, or that of a command"
}

// What the command does, in the first line of its help text.
pub(crate) fn about_all() -> &'static str {
    "Keeps a ledger of unspent outputs, and runs transactions on it"
}
