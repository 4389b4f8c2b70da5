// What clap makes of the words.
ghost use Rattle.std.specs.Prelude.{◌≡◌, map, IfOk};
ghost use Rattle.clap.specs.Words.{FailsBy, fault_of, subcommand_of, subcommand_rows_of};
ghost use Rattle.command_line.specs.Command.{hamilton};

use crate::program;
use clap::{ArgMatches, Error};
use std::alloc::Global;
use std::convert::AsStr;

/// The matches of the words, the first of which is the program's name, or a fault of them.
pub(crate) fn matches_of<'a, S: AsStr>(
    alloc: Global,
    words: &'a [S],
) -> Result<ArgMatches<'a>, Error>
    ensures met { IfOk result
        (λ m. subcommand_of hamilton (map S.text words.entry.now) ≡ subcommand_rows_of m) }
    ensures fails { FailsBy (fault_of hamilton (map S.text words.entry.now)) result }
{
    let command = program(alloc)?;
    command.try_get_matches_from(words)
}
