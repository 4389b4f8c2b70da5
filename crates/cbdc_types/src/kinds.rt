// What an output is, told by its program.
ghost use Rattle.std.specs.Prelude.{◌≡◌};
ghost use Rattle.cbdc_types.specs.Kinds.{kind_of};

use crate::{Kind, Output};

/// What an output is. It takes no memory.
#[tactic(auto, unfolding(crate::specs::Kinds::kind_of))]
pub fn kind(output: &Output) -> Kind
    ensures { result ≡ kind_of output.now }
{
    let program = output.program.0.as_slice();
    // Most programs are told apart by their first byte.
    match program.first() {
        Some(254) if program.starts_with(&[254; 16]) => Kind::Permit,
        Some(255) if program.starts_with(&[255; 16]) => Kind::Burn,
        _ => Kind::Money,
    }
}
