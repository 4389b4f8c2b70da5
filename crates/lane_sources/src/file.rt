// A client file, and what is said of its witnesses.
ghost use Rattle.std.specs.Prelude.{◌≡◌, ◌+◌, ◌*◌, ◌^◌, ◌<◌, ℕ, List, [], length};
ghost use Rattle.cbdc_model.specs.Coins.{FullTx as Full};
ghost use Rattle.cbdc_model.specs.Records.{Shape as ShapeOf};
ghost use Rattle.submissions.specs.Checks.{VerdictsOf};
ghost use Rattle.lane_sources.specs.Deals.{no_shape, no_verdicts};

use cbdc_types::FullTx;
use sentinel::Verifier;
use std::marker::{Brand, Model, PhantomData};

/// Which file is dealt to lanes. A call at `Brand` picks it, and from then on the type of a source says that it is this one's.
pub trait Deals {
    /// The shape of the ledger, whose lanes are meant.
    ghost shape: { ShapeOf };

    /// The submissions of the file.
    ghost file: { List Full };

    /// The verdicts on its witnesses.
    ghost verdicts: { VerdictsOf };
}

impl Deals for Brand {
    ghost shape = { no_shape };

    ghost file = { [] };

    ghost verdicts = { no_verdicts };
}

/// The submissions of the file that `F` picks, with what tells verdicts, and the number of lanes. Contracts see the number alone; the
/// rest is what the type says.
#[derive(Drop)]
pub struct FileOf<'a, V: Verifier, F: Deals> {
    txs: &'a [FullTx],
    verifier: &'a V,
    lanes: u32,
    of: PhantomData<F>,
}

impl<'a, V: Verifier, F: Deals> Model for FileOf<'a, V, F> {
    ghost Value = { ℕ };

    ghost view = { λ f. f.lanes };

    ghost invariant = { λ f. (f.txs.now ≡ F.file) × (V.verdict_of f.verifier.now ≡ F.verdicts) × (f.lanes ≡ F.shape.coordinators * F.shape.lanes) × (0 < f.lanes) × (length f.txs.now < 2 ^ 63) };
}

impl<'a, V: Verifier, F: Deals> FileOf<'a, V, F> {
    /// The file that is picked.
    pub fn new(txs: &'a [FullTx], verifier: &'a V, lanes: u32) -> FileOf<'a, V, F>
        requires file { txs.now ≡ F.file }
        requires verdicts { V.verdict_of verifier.now ≡ F.verdicts }
        requires lanes { lanes ≡ F.shape.coordinators * F.shape.lanes }
        requires some { 0 < lanes }
        ensures { result ≡ lanes }
    {
        FileOf {
            txs,
            verifier,
            lanes,
            of: PhantomData,
        }
    }

    /// Its submissions.
    pub fn txs(&self) -> &'a [FullTx]
        ensures { result.now ≡ F.file }
    {
        self.txs
    }

    /// What tells verdicts.
    pub fn verifier(&self) -> &'a V
        ensures { V.verdict_of result.now ≡ F.verdicts }
    {
        self.verifier
    }

    /// How many lanes there are.
    pub fn lanes(&self) -> usize
        ensures same { result ≡ self.now }
        ensures lanes { result ≡ F.shape.coordinators * F.shape.lanes }
        ensures some { 0 < result }
        ensures fits { length F.file + result < 2 ^ 64 }
        ensures small { result < 2 ^ 32 }
    {
        self.lanes as usize
    }
}
