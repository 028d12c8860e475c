// Fabs, floor, ceil and rint on cells (document 02, R-1).
ghost use Rattle.std.specs.Prelude.{◌≡◌};
ghost use Rattle.definition.specs.Floats.{floor_f, ceil_f, rint_f, fabs_f};
ghost use Rattle.floats.specs.Rounding.{is_rounding, rounding_op};

use crate::{of_cell, to_cell};

// The numbers of the four (functions.rs, BuiltinFunctionId). Numbers and no enum: the two functions below take each number.
pub const R_INT: u32 = 36;

pub const FLOOR: u32 = 37;

pub const CEIL: u32 = 38;

pub const F_ABS: u32 = 43;

#[tactic(auto, using(crate::proofs::Wholes::floor_law))]
pub fn floor(x: u32) -> u32
    ensures { result ≡ floor_f x }
{
    to_cell(of_cell(x).floor())
}

#[tactic(auto, using(crate::proofs::Wholes::ceil_law))]
pub fn ceil(x: u32) -> u32
    ensures { result ≡ ceil_f x }
{
    to_cell(of_cell(x).ceil())
}

#[tactic(auto, using(crate::proofs::Wholes::rint_law))]
pub fn rint(x: u32) -> u32
    ensures { result ≡ rint_f x }
{
    to_cell(of_cell(x).round())
}

#[tactic(auto, using(crate::proofs::Wholes::fabs_law))]
pub fn fabs(x: u32) -> u32
    ensures { result ≡ fabs_f x }
{
    to_cell(of_cell(x).abs())
}

// ---- by number

#[tactic(auto, unfolding(definition::specs::Floats::rounding_of))]
pub fn is_rounding(n: u32) -> bool
    ensures { result ≡ is_rounding n }
{
    matches!(n, F_ABS | FLOOR | CEIL | R_INT)
}

// 0 where the number is none of the four. A table of the four would hand out functions.
#[tactic(auto, unfolding(crate::specs::Rounding::rounding_op, definition::specs::Floats::rounding_of))]
pub fn rounding(n: u32, x: u32) -> u32
    ensures { result ≡ rounding_op n x }
{
    match n {
        F_ABS => fabs(x),
        FLOOR => floor(x),
        CEIL => ceil(x),
        R_INT => rint(x),
        _ => 0,
    }
}
