// The book: which output lies at which outpoint.
ghost use Rattle.std.specs.Prelude.{◌≡◌, ◌<◌, ◌^◌, IfOk, OnOk, Some, sum_by};
ghost use Rattle.std.specs.FinMap as book;
ghost use Rattle.std.specs.HashMap.{values, hash_map_len};
ghost use Rattle.cbdc_model.specs.Book.{Book as ModelBook, key, take_out, take_all, put_all, spend, genesis_book};
ghost use Rattle.cbdc_model.specs.Coins.{made_coins, tx_id};
ghost use Rattle.cbdc_model.specs.Money.{money_of};

use cbdc_types::{FullTx, Hash, Input, Kind, Output, kind};
use same_records::is_same_output;
use sentinel::genesis_id;
use std::alloc::{AllocError, Global};
use std::collections::HashMap;

/// The output at each outpoint. An outpoint is the id of a transaction and an index.
#[derive(Drop)]
pub(crate) struct Book {
    pub(crate) outputs: HashMap<(Hash, u64), Output>,
}

// What an output is worth, where it is money.
fn money_in(output: &Output) -> u128
    ensures value { result ≡ money_of output.now }
    ensures small { result < 2 ^ 64 }
{
    match kind(output) {
        Kind::Money => u128::from(output.value),
        Kind::Permit | Kind::Burn => 0,
    }
}

// What an output is worth.
fn worth_of(output: &Output) -> u128
    ensures value { result ≡ output.now.value }
    ensures small { result < 2 ^ 64 }
{
    u128::from(output.value)
}

impl Book {
    ghost use Rattle.audit.specs.Keeping.{HasBook, HasRest};

    // No outputs.
    fn new(alloc: Global) -> Book
        ensures { HasBook result book.empty }
    {
        Book {
            outputs: HashMap::new(alloc),
        }
    }

    // Puts an output in at an outpoint.
    fn put(&mut self, id: &Hash, index: u64, output: &Output) -> Result<(), AllocError>
        ensures { OnOk result ((b : ModelBook) → HasBook self.old b
            → HasBook self.new (book.insert b (key (record { tx = id.now; index = index })) output.now)) }
    {
        self.outputs.insert((*id, index), *output)?;
        Ok(())
    }

    // Puts outputs in under an id, at 0, 1, 2 and so on.
    fn put_all(&mut self, id: &Hash, outputs: &[Output]) -> Result<(), AllocError>
        ensures { OnOk result ((b : ModelBook) → HasBook self.old b
            → HasBook self.new (put_all b (made_coins id.now 0 outputs.now))) }
    {
        'outputs: for index in 0..outputs.len() {
            self.put(id, index as u64, &outputs[index])?;
        }
        Ok(())
    }

    /// The book that a mint is.
    pub(crate) fn of_mint(alloc: Global, mint: &[Output]) -> Result<Book, AllocError>
        ensures { IfOk result (λ m. HasBook m (genesis_book mint.now)) }
    {
        let mut book = Book::new(alloc);
        let id = genesis_id(alloc, mint)?;
        book.put_all(&id, mint)?;
        Ok(book)
    }

    // Takes a coin out. False where the book does not have the claimed output at its outpoint.
    fn take_out(&mut self, coin: &Input) -> bool
        ensures { (b : ModelBook) → HasBook self.old b → HasRest result self.new (take_out b coin.now) }
    {
        match self.outputs.remove(&(coin.point.tx, coin.point.index)) {
            Some(output) => is_same_output(&output, &coin.output),
            None => false,
        }
    }

    // Takes coins out one after another. False where one is not there as claimed, or stands twice.
    fn take_all(&mut self, coins: &[Input]) -> bool
        ensures { (b : ModelBook) → HasBook self.old b
            → HasRest result self.new (take_all (Some b) coins.now) }
    {
        'coins: for at in 0..coins.len() {
            if !self.take_out(&coins[at]) {
                return false;
            }
        }
        true
    }

    /// Takes the inputs of the transaction with this id out and puts its outputs in. False where an input is not there as claimed, or stands
    /// twice.
    pub(crate) fn spend(&mut self, tx: &FullTx, id: &Hash) -> Result<bool, AllocError>
        requires { id.now ≡ tx_id tx.now }
        ensures { (b : ModelBook) → HasBook self.old b
            → IfOk result (λ yes. HasRest yes self.new (spend b tx.now)) }
    {
        if !self.take_all(tx.inputs.as_slice()) {
            return Ok(false);
        }
        self.put_all(id, tx.outputs.as_slice())?;
        Ok(true)
    }

    /// How many coins there are.
    pub(crate) fn len(&self) -> u64
        ensures { result ≡ hash_map_len self.now.outputs }
    {
        self.outputs.len() as u64
    }

    /// The sum of the values of those that are money.
    pub(crate) fn money(&self) -> u128
        ensures { result ≡ sum_by money_of (values self.now.outputs) }
    {
        let mut money = 0u128;
        'outputs: for output in self.outputs.values() {
            money += money_in(output);
        }
        money
    }

    /// The sum of their values.
    pub(crate) fn value(&self) -> u128
        ensures { result ≡ sum_by (λ o. o.value) (values self.now.outputs) }
    {
        let mut value = 0u128;
        'outputs: for output in self.outputs.values() {
            value += worth_of(output);
        }
        value
    }
}
