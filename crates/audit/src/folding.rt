// The committed transactions of a history, spent one after another.
ghost use Rattle.std.specs.Prelude.{◌≡◌, ◌+◌, ◌++◌, ◌∷◌, [], List as Items, IfOk, OnOk, MatchOption};
ghost use Rattle.cbdc_model.specs.Money.{issued_by, redeemed_by};
ghost use Rattle.cbdc_model.specs.Records.{Compact};
ghost use Rattle.cbdc_model.specs.Coins.{Output as ModelOutput};
ghost use Rattle.cbdc_model.specs.Book.{Book as ModelBook};
ghost use Rattle.cbdc_model.specs.Outcomes.{won_txs};
ghost use Rattle.audit.specs.Spending.{AreSpent, IsFormWrong, IsFirstWrong};

use crate::book::Book;
use crate::handed::ById;
use crate::issuing::{issued_by, redeemed_by};
use cbdc_types::{CompactTx, FullTx, Outcome, Output, UnsoundKind};
use same_records::is_won;
use std::alloc::{AllocError, Global};

/// The book so far, how many transactions were spent, and what these issued and redeemed.
#[derive(Drop)]
pub(crate) struct Fold {
    pub(crate) book: Book,
    pub(crate) committed: u64,
    pub(crate) issued: u128,
    pub(crate) redeemed: u128,
}

impl Fold {
    ghost use Rattle.std.specs.List.{AllZip};
    ghost use Rattle.audit.specs.Keeping.{IsIndex, IsFormOf, HasSpent};

    /// A mint, with nothing spent.
    pub(crate) fn of_mint(
        alloc: Global,
        mint: &[Output],
        handed: &[FullTx],
    ) -> Result<Fold, AllocError>
        ensures { IfOk result (HasSpent mint.now handed.now []) }
    {
        let book = Book::of_mint(alloc, mint)?;
        Ok(Fold {
            book,
            committed: 0,
            issued: 0,
            redeemed: 0,
        })
    }

    // Counts a transaction that was spent, with what it issues and redeems. None of these numbers comes near its end: there is no memory for
    // so many transactions.
    fn count(&mut self, tx: &FullTx) -> Result<(), AllocError>
        ensures book { self.new.book ≡ self.old.book }
        ensures committed { OnOk result (self.new.committed ≡ self.old.committed + 1) }
        ensures issued { OnOk result (self.new.issued ≡ self.old.issued + issued_by tx.now) }
        ensures redeemed { OnOk result (self.new.redeemed ≡ self.old.redeemed + redeemed_by tx.now) }
    {
        let Some(committed) = self.committed.checked_add(1) else {
            return Err(AllocError);
        };
        let Some(issued) = self.issued.checked_add(issued_by(tx)) else {
            return Err(AllocError);
        };
        let Some(redeemed) = self.redeemed.checked_add(redeemed_by(tx)) else {
            return Err(AllocError);
        };
        self.committed = committed;
        self.issued = issued;
        self.redeemed = redeemed;
        Ok(())
    }

    // Spends the first transaction that was handed in with this compact form. What is wrong with it, if anything is.
    fn spend(
        &mut self,
        ids: &ById,
        handed: &[FullTx],
        compacts: &[CompactTx],
        form: &CompactTx,
    ) -> Result<Option<UnsoundKind>, AllocError>
        requires index { IsIndex handed.now ids.now }
        requires compacts { AllZip IsFormOf handed.now compacts.now }
        ensures { (mint : Items ModelOutput) → (forms : Items Compact)
            → IsIndex handed.now ids.now → HasSpent mint handed.now forms self.old → IfOk result
            (λ o. MatchOption o (HasSpent mint handed.now (forms ++ form.now ∷ []) self.new) (λ kind.
            (b : ModelBook) × AreSpent mint handed.now forms b × IsFormWrong handed.now b form.now kind)) }
    {
        let Some(tx) = ids.first_with(handed, compacts, form) else {
            return Ok(Some(UnsoundKind::Unknown(form.id)));
        };
        if !self.book.spend(tx, &form.id)? {
            return Ok(Some(UnsoundKind::Unfunded(form.id)));
        }
        self.count(tx)?;
        Ok(None)
    }

    /// Spends those transactions of a batch that are committed, in order. What is wrong with the first that can't be spent, if one can't.
    pub(crate) fn commit(
        &mut self,
        ids: &ById,
        handed: &[FullTx],
        compacts: &[CompactTx],
        txs: &[CompactTx],
        outcomes: &[Outcome],
    ) -> Result<Option<UnsoundKind>, AllocError>
        requires index { IsIndex handed.now ids.now }
        requires compacts { AllZip IsFormOf handed.now compacts.now }
        ensures { (mint : Items ModelOutput) → (forms : Items Compact)
            → IsIndex handed.now ids.now → HasSpent mint handed.now forms self.old → IfOk result
            (λ o. MatchOption o (HasSpent mint handed.now (forms ++ won_txs txs.now outcomes.now) self.new)
            (IsFirstWrong mint handed.now forms (won_txs txs.now outcomes.now))) }
    {
        'txs: for at in 0..txs.len().min(outcomes.len()) {
            if is_won(&outcomes[at]) {
                if let Some(kind) = self.spend(ids, handed, compacts, &txs[at])? {
                    return Ok(Some(kind));
                }
            }
        }
        Ok(None)
    }
}
