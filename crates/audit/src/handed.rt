// The transactions that were handed in, by their ids.
ghost use Rattle.std.specs.Prelude.{◌≡◌, ◌<◌, ◌++◌, ◌∷◌, [], List as Items, length, None, Some, slice_index_or, IfOk, OnOk, MatchOption};
ghost use Rattle.std.specs.List.{AllZip};
ghost use Rattle.cbdc_model.specs.Coins.{FullTx as ModelTx, compact, tx_id as id_of_tx};
ghost use Rattle.cbdc_model.specs.History.{same_compact, first_with};
ghost use Rattle.audit.specs.Keeping.{IsIndex, IsFormOf};

use cbdc_types::{CompactTx, FullTx, Hash};
use same_records::is_same_compact;
use std::alloc::{AllocError, Global};
use std::collections::HashMap;

/// The index of the first transaction with each id.
#[derive(Drop)]
pub(crate) struct ById {
    pub(crate) firsts: HashMap<Hash, u64>,
}

// Whether the transaction at a place has a compact form, by the forms of all.
fn has_form(forms: &[CompactTx], at: usize, form: &CompactTx) -> bool
    ensures { (txs : Items ModelTx) (t : ModelTx) → AllZip IsFormOf txs forms.now
        → at < length txs → t ≡ slice_index_or txs at t → result ≡ same_compact (compact t) form.now }
{
    match forms.get(at) {
        Some(own) => is_same_compact(own, form),
        None => false,
    }
}

// The first transaction with a compact form, by looking at each.
fn search<'a>(txs: &'a [FullTx], forms: &[CompactTx], form: &CompactTx) -> Option<&'a FullTx>
    requires { AllZip IsFormOf txs.now forms.now }
    ensures { MatchOption result (first_with txs.now form.now ≡ None)
        (λ t. first_with txs.now form.now ≡ Some t.now) }
{
    'txs: for at in 0..txs.len() {
        if has_form(forms, at, form) {
            return Some(&txs[at]);
        }
    }
    None
}

impl ById {
    // Takes one more transaction in by its id, behind so many others.
    fn note(&mut self, id: &Hash, at: u64) -> Result<(), AllocError>
        ensures { OnOk result ((txs : Items ModelTx) (tx : ModelTx) → length txs ≡ at
            → id.now ≡ id_of_tx tx → IsIndex txs self.old → IsIndex (txs ++ tx ∷ []) self.new) }
    {
        if self.firsts.contains_key(id) {
            return Ok(());
        }
        self.firsts.insert(*id, at)?;
        Ok(())
    }

    /// Takes transactions in, whose compact forms are these.
    pub(crate) fn of(alloc: Global, txs: &[FullTx], forms: &[CompactTx]) -> Result<ById, AllocError>
        requires { AllZip IsFormOf txs.now forms.now }
        ensures { IfOk result (IsIndex txs.now) }
    {
        let mut all = ById {
            firsts: HashMap::with_capacity(alloc, txs.len())?,
        };
        'txs: for at in 0..txs.len() {
            all.note(&forms[at].id, at as u64)?;
        }
        Ok(all)
    }

    /// The first transaction with a compact form. Only where two different ones share an id is each looked at.
    pub(crate) fn first_with<'a>(
        &self,
        txs: &'a [FullTx],
        forms: &[CompactTx],
        form: &CompactTx,
    ) -> Option<&'a FullTx>
        requires { AllZip IsFormOf txs.now forms.now }
        ensures { IsIndex txs.now self.now → MatchOption result (first_with txs.now form.now ≡ None)
            (λ t. first_with txs.now form.now ≡ Some t.now) }
    {
        let Some(at) = self.firsts.get(&form.id) else {
            return None;
        };
        let Some(first) = txs.get(*at as usize) else {
            return None;
        };
        if has_form(forms, *at as usize, form) {
            return Some(first);
        }
        search(txs, forms, form)
    }
}
