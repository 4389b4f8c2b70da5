//! What a sentinel makes of a transaction, without the ledger: its id, the hashes of its coins, and its compact form, which is what coordinators
//! and shards see of it; a mint as a transaction, with its id. Whether its form, its sums and the verdicts on its witnesses let it pass, with the
//! verifier that is asked for these and the file that has them.
//!
//! - `check`: It takes no memory. A repeated outpoint is sought by comparing each input with those before it, at most 255 * 254 / 2 comparisons.
//! - `tx_id`, `uhs_id`, `input_hash`: They take no memory. Witnesses change no id.
//! - Open: that bytes of a verdict file have only one reading is not a law of its own. No signature is checked here. That hashes don't collide is a
//!   hypothesis wherever it is needed.
//! - Tested in `piece_rows`: every reason to refuse a transaction (`refusals.rows`); verdict files (`verdicts.rows`); digests that another program
//!   computed (`hashes.rows`).
#![tactic(auto)]

mod compacting;
mod file;
mod identifiers;
mod line;
mod permits;
mod places;
mod steps;
mod verifier;

ghost use Rattle.std.specs.Prelude.{MatchResult};
ghost use Rattle.sentinel.specs.FirstRefusal.{IsFirstRefusal, IsSoundTx};

use cbdc_types::{FullTx, Hash, Refusal};
pub use compacting::{compact, compact_as, genesis_id, genesis_tx};
pub use file::{BadLine, VerdictFault, VerdictFile};
pub use identifiers::{input_hash, tx_id, uhs_id};
use steps::{
    balances, fits_inputs, fits_outputs, has_bad, has_inputs, has_outputs, has_unverified,
    has_witnesses, has_zero_input, has_zero_output, pairs_permits, raises_permit, repeats,
    spends_burned,
};
pub use verifier::{AllGood, Verdict, Verifier};

/// Checks a transaction with this id. The refusal is the first reason that applies, and a place is always the least:
///
/// - no inputs, no outputs, another number of witnesses than of inputs, a repeated outpoint;
/// - an input of value 0, an output of value 0, a sum of the inputs or of the outputs past 2^64 - 1, unlike sums;
/// - an input that claims a burn output, permits that are neither none and none nor one and one, a permit of more value than the one that is spent;
/// - a bad witness, a witness of which nothing is known.
pub fn check<V: Verifier>(tx: &FullTx, id: &Hash, verifier: &V) -> Result<(), Refusal>
    ensures { MatchResult result
        (λ _. IsSoundTx tx.now (V.verdict_of verifier.now id.now))
        (λ r. IsFirstRefusal tx.now (V.verdict_of verifier.now id.now) r) }
{
    has_inputs(tx)?;
    has_outputs(tx)?;
    has_witnesses(tx)?;
    repeats(tx)?;
    has_zero_input(tx)?;
    has_zero_output(tx)?;
    fits_inputs(tx)?;
    fits_outputs(tx)?;
    balances(tx)?;
    spends_burned(tx)?;
    pairs_permits(tx)?;
    raises_permit(tx)?;
    has_bad(tx, id, verifier)?;
    has_unverified(tx, id, verifier)
}
