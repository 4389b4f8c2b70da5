// What an audit's verdict is worth. The laws have no body that runs.
ghost use Rattle.rack_ledgers.specs.AccountLaws.{HasOneVerdict, VerdictsAccount};

use outside::Rack;

/// Where the disks tell their contents, an audit by a mint and what was handed in has one verdict: what is told of the verdict determines it.
pub fn one_verdict_law<R: Rack>(rack: &R)
    ensures { HasOneVerdict R.Disk.Disk (R.held rack.now) }
{}

/// Where an audit finds all sound, the money of the ledger that the disks tell is accounted for, if its first records are those of the mint,
/// no hashes clash and each committed transaction has an input.
///
/// Let the verdict be Sound, the first records be the mint's, no hashes clash and each committed transaction have an input. Then the journals have
/// one history on top of the mint's first records, in which each record is caused and each Prepare's batch is done. Each committed transaction was
/// handed in, and folding them from the mint in the order of their Commits, where each found all its inputs, leaves a book; the totals are those of
/// this book. The shards together hold exactly the hashes of its coins. No two inputs name one outpoint and no id is committed twice. Every batch is
/// finished alike on all its shards. Where each of these transactions makes as much as it takes, the value is the value minted, and where each keeps
/// the money, money is what was minted plus issued less redeemed.
pub fn account_law<R: Rack>(rack: &R)
    ensures { VerdictsAccount R.Disk.Disk (R.held rack.now) }
{}
