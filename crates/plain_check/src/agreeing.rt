// Whether transactions have ids, and coins hashes, that tell them apart.
ghost use Rattle.std.specs.Prelude.{◌≡◌, ◌↔◌, IsTrue};
ghost use Rattle.std.specs.List.{AllByRecursion};
ghost use Rattle.cbdc_model.specs.Coins.{coin_hash, tx_id as id_of_tx};
ghost use Rattle.plain_check.specs.Agreeing.{Agree, CoinsAgree};

use cbdc_types::{FullTx, Hash, Input, Output};
use same_records::is_hash;
use sentinel::{input_hash, tx_id};

// Whether two coins are the same.
#[tactic(auto, using(crate::proofs::Equality::coin_decides))]
fn is_coin(c: &Input, d: &Input) -> bool
    ensures { IsTrue result ↔ (c.now ≡ d.now) }
{
    c == d
}

// Whether two lists of outputs are the same.
#[tactic(auto, using(crate::proofs::Equality::outputs_decide))]
fn are_outputs(os: &[Output], ps: &[Output]) -> bool
    ensures { IsTrue result ↔ (os.now ≡ ps.now) }
{
    os == ps
}

// Whether two lists of coins are the same.
#[tactic(auto, using(crate::proofs::Equality::coins_decide))]
fn are_coins(cs: &[Input], ds: &[Input]) -> bool
    ensures { IsTrue result ↔ (cs.now ≡ ds.now) }
{
    cs == ds
}

// The hash of a coin.
#[tactic(auto, unfolding(cbdc_model::specs::Coins::coin_hash))]
fn hash_of(c: &Input) -> Hash
    ensures { result ≡ coin_hash c.now }
{
    input_hash(c)
}

// The id of a transaction.
#[tactic(auto, unfolding(cbdc_model::specs::Coins::id_of))]
fn id_of(t: &FullTx) -> Hash
    ensures { result ≡ id_of_tx t.now }
{
    tx_id(t)
}

/// Whether two transactions have two ids, or the same inputs and outputs.
pub fn agree(t: &FullTx, u: &FullTx) -> bool
    ensures { IsTrue result ↔ Agree t.now u.now }
{
    if !is_hash(&id_of(t), &id_of(u)) {
        return true;
    }
    are_coins(t.inputs.as_slice(), u.inputs.as_slice())
        && are_outputs(t.outputs.as_slice(), u.outputs.as_slice())
}

/// Whether two coins have two hashes, or are the same.
pub fn coins_agree(c: &Input, d: &Input) -> bool
    ensures { IsTrue result ↔ CoinsAgree c.now d.now }
{
    !is_hash(&hash_of(c), &hash_of(d)) || is_coin(c, d)
}

/// Whether a transaction agrees with each of these.
pub fn agrees_with(t: &FullTx, us: &[FullTx]) -> bool
    ensures { IsTrue result ↔ AllByRecursion (Agree t.now) us.now }
{
    match us.split_first() {
        None => true,
        Some((u, rest)) => agree(t, u) && agrees_with(t, rest),
    }
}

/// Whether each transaction agrees with each of those.
pub fn all_agree(ts: &[FullTx], us: &[FullTx]) -> bool
    ensures { IsTrue result ↔ AllByRecursion (λ t. AllByRecursion (Agree t) us.now) ts.now }
{
    match ts.split_first() {
        None => true,
        Some((t, rest)) => agrees_with(t, us) && all_agree(rest, us),
    }
}

/// Whether a coin agrees with each of these.
pub fn coin_agrees_with(c: &Input, ds: &[Input]) -> bool
    ensures { IsTrue result ↔ AllByRecursion (CoinsAgree c.now) ds.now }
{
    match ds.split_first() {
        None => true,
        Some((d, rest)) => coins_agree(c, d) && coin_agrees_with(c, rest),
    }
}

/// Whether each coin agrees with each of those.
pub fn all_coins_agree(cs: &[Input], ds: &[Input]) -> bool
    ensures { IsTrue result ↔ AllByRecursion (λ c. AllByRecursion (CoinsAgree c) ds.now) cs.now }
{
    match cs.split_first() {
        None => true,
        Some((c, rest)) => coin_agrees_with(c, ds) && all_coins_agree(rest, ds),
    }
}
