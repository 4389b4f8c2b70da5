// Copies of what was given, and parts of it in lists of their own.
ghost use Rattle.std.specs.Prelude.{◌≡◌, ◌∷◌, ◌++◌, [], IfOk, OnOk};
ghost use Rattle.cbdc_model.specs.Replies.{entries, replies};

use cbdc_types::{Answered, CompactTx, Entry, FullTx, List, Record, Reply};
use std::alloc::{AllocError, Global};

/// A copy of an entry.
pub fn copy_of_entry(x: &Entry) -> Result<Entry, AllocError>
    ensures { IfOk result (λ y. y ≡ x.now) }
{
    x.clone()
}

/// A copy of a compact transaction.
pub fn copy_of_compact(x: &CompactTx) -> Result<CompactTx, AllocError>
    ensures { IfOk result (λ y. y ≡ x.now) }
{
    x.clone()
}

/// A copy of a transaction.
pub fn copy_of_full(x: &FullTx) -> Result<FullTx, AllocError>
    ensures { IfOk result (λ y. y ≡ x.now) }
{
    x.clone()
}

/// A copy of a record.
pub fn copy_of_record(x: &Record) -> Result<Record, AllocError>
    ensures { IfOk result (λ y. y ≡ x.now) }
{
    x.clone()
}

/// A copy of compact transactions, as a list.
pub fn copy_of_txs(alloc: Global, xs: &[CompactTx]) -> Result<List<CompactTx>, AllocError>
    ensures { IfOk result (λ l. l ≡ xs.now) }
{
    Ok(List::from_vec(xs.to_vec(alloc)?))
}

/// A copy of records, as a list.
pub fn copy_of_records(alloc: Global, xs: &[Record]) -> Result<List<Record>, AllocError>
    ensures { IfOk result (λ l. l ≡ xs.now) }
{
    let mut all = Vec::with_capacity(alloc, xs.len())?;
    for x in xs {
        put(&mut all, copy_of_record(x)?)?;
    }
    Ok(List::from_vec(all))
}

/// Puts a copy of a journal behind those so far.
pub fn put_copy(
    alloc: Global,
    journal: &[Record],
    out: &mut Vec<List<Record>>,
) -> Result<(), AllocError>
    ensures { OnOk result (out.new.items ≡ out.old.items ++ journal.now ∷ []) }
{
    put(out, copy_of_records(alloc, journal)?)
}

/// The replies of answered entries.
pub fn replies_in(alloc: Global, es: &[Answered]) -> Result<List<Reply>, AllocError>
    ensures { IfOk result (λ l. l ≡ replies es.now) }
{
    let mut all = Vec::with_capacity(alloc, es.len())?;
    for a in es {
        put(&mut all, a.reply)?;
    }
    Ok(List::from_vec(all))
}

/// Answered entries without their replies.
pub fn entries_in(alloc: Global, es: &[Answered]) -> Result<List<Entry>, AllocError>
    ensures { IfOk result (λ l. l ≡ entries es.now) }
{
    let mut all = Vec::with_capacity(alloc, es.len())?;
    for a in es {
        put(&mut all, copy_of_entry(&a.entry)?)?;
    }
    Ok(List::from_vec(all))
}

/// Puts an item behind those so far.
pub fn put<T: Drop>(out: &mut Vec<T>, item: T) -> Result<(), AllocError>
    ensures { OnOk result (out.new.items ≡ out.old.items ++ item ∷ []) }
{
    out.push(item)?;
    Ok(())
}

/// Puts copies of items behind those so far.
pub fn put_slice<T: Copy>(out: &mut Vec<T>, items: &[T]) -> Result<(), AllocError>
    ensures { OnOk result (out.new.items ≡ out.old.items ++ items.now) }
{
    out.extend_from_slice(items)
}

/// An item in front of a list.
pub fn with_front<T: Drop>(first: T, rest: List<T>) -> Result<List<T>, AllocError>
    ensures { IfOk result (λ l. l ≡ first ∷ rest) }
{
    let mut items = rest.into_vec();
    items.insert(0, first)?;
    Ok(List::from_vec(items))
}
