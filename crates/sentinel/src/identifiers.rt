// Ids of transactions and hashes of coins. Nothing here takes memory.
ghost use Rattle.std.specs.Prelude.{◌≡◌, ◌++◌, List, ℕ, length};
ghost use Rattle.std.specs.List.{flat_map};
ghost use Rattle.byte_spelling.specs.Spelling.{number, output, input, counted};
ghost use Rattle.cbdc_model.specs.Coins.{tx_id as id_of_tx, coin_hash};
ghost use Rattle.sha2.specs.Hashers.{Holds256};

use byteorder::{ByteOrder, LittleEndian};
use cbdc_types::{FullTx, Hash, Input, OutPoint, Output};
use sha2::{Digest, Sha256};

#[tactic(auto, unfolding(byte_spelling::specs::Spelling::number))]
fn feed_number(hasher: &mut Sha256, n: u64)
    ensures { (m : List ℕ) → Holds256 hasher.old m → Holds256 hasher.new (m ++ number n) }
{
    let mut bytes = [0; 8];
    LittleEndian::write_u64(&mut bytes, n);
    hasher.update(bytes.as_slice());
}

fn feed_output(hasher: &mut Sha256, o: &Output)
    ensures { (m : List ℕ) → Holds256 hasher.old m → Holds256 hasher.new (m ++ output o.now) }
{
    hasher.update(o.program.0.as_slice());
    feed_number(hasher, o.value);
}

fn feed_input(hasher: &mut Sha256, i: &Input)
    ensures { (m : List ℕ) → Holds256 hasher.old m → Holds256 hasher.new (m ++ input i.now) }
{
    hasher.update(i.point.tx.0.as_slice());
    feed_number(hasher, i.point.index);
    feed_output(hasher, &i.output);
}

fn feed_inputs(hasher: &mut Sha256, inputs: &[Input])
    ensures { (m : List ℕ) → Holds256 hasher.old m → Holds256 hasher.new (m ++ counted input inputs.now) }
{
    feed_number(hasher, inputs.len() as u64);
    feed_each_input(hasher, inputs);
}

fn feed_each_input(hasher: &mut Sha256, items: &[Input])
    ensures { (m : List ℕ) → Holds256 hasher.old m → Holds256 hasher.new (m ++ flat_map input items.now) }
{
    'items: for item in items {
        feed_input(hasher, item);
    }
}

fn feed_outputs(hasher: &mut Sha256, outputs: &[Output])
    ensures { (m : List ℕ) → Holds256 hasher.old m → Holds256 hasher.new (m ++ counted output outputs.now) }
{
    feed_number(hasher, outputs.len() as u64);
    feed_each_output(hasher, outputs);
}

fn feed_each_output(hasher: &mut Sha256, items: &[Output])
    ensures { (m : List ℕ) → Holds256 hasher.old m → Holds256 hasher.new (m ++ flat_map output items.now) }
{
    'items: for item in items {
        feed_output(hasher, item);
    }
}

/// The id of a transaction: SHA-256 of its list of inputs and its list of outputs, lengths included.
#[tactic(auto, unfolding(cbdc_model::specs::Coins::id_of))]
pub fn tx_id(tx: &FullTx) -> Hash
    ensures { result ≡ id_of_tx tx.now }
{
    let mut hasher = Sha256::new();
    feed_inputs(&mut hasher, tx.inputs.as_slice());
    feed_outputs(&mut hasher, tx.outputs.as_slice());
    Hash(hasher.finalize())
}

/// The hash of the coin that an input claims: SHA-256 of the input's 80 bytes.
#[tactic(auto, unfolding(cbdc_model::specs::Coins::coin_hash))]
pub fn input_hash(i: &Input) -> Hash
    ensures { result ≡ coin_hash i.now }
{
    let mut hasher = Sha256::new();
    feed_input(&mut hasher, i);
    Hash(hasher.finalize())
}

/// The hash of a coin: SHA-256 of the transaction's id, the output's index there, its program and its value, 80 bytes.
pub fn uhs_id(tx: &Hash, index: u64, o: &Output) -> Hash
    ensures { result ≡ coin_hash (record { point = record { tx = tx.now; index = index }; output = o.now }) }
{
    input_hash(&Input {
        point: OutPoint { tx: *tx, index },
        output: *o,
    })
}
