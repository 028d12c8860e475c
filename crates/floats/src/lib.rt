// Floats on cells. A cell is a `u32`, the bit pattern of an `f32`; each function here equals the definition's of the same name.
#![tactic(auto)]

ghost use Rattle.std.specs.Prelude.{◌≡◌, ◌/◌, ◌%◌, ◌<◌, ◌≤◌};
ghost use Rattle.definition.specs.Floats.{value, cell, add_f, sub_f, mul_f, div_f, flag, is_zero, eq_f, ne_f, le_f, ge_f, lt_f, gt_f, and_f, or_f, not_f, whole, bit_and_f, bit_or_f};
ghost use Rattle.definition.specs.Floats.{mul_v, same_v, eq_v, ne_v, not_v, eq_n, ne_n, not_n};
ghost use Rattle.floats.specs.Scaled.{scaled};
ghost use Rattle.floats.specs.Vectors.{on_vector, on_vectors};
ghost use Rattle.floats.specs.Opcodes.{float_op, component_op, vectors_to_float_op, value_op, not_op};

use functions::ops;

pub mod rounding;

// The float of a cell.
pub fn of_cell(x: u32) -> f32
    ensures { result ≡ value x }
{
    std::num::f32_from_bits_with_nan(x)
}

// The cell of a float: a NaN's is 7fc00000.
pub fn to_cell(x: f32) -> u32
    ensures { result ≡ cell x }
{
    std::num::f32_to_bits_with_nan(x)
}

// ---- two floats. A function for each opcode, and none over the operator: with a closure at each they would be no plainer.

pub fn add_f(a: u32, b: u32) -> u32
    ensures { result ≡ add_f a b }
{
    to_cell(of_cell(a) + of_cell(b))
}

pub fn sub_f(a: u32, b: u32) -> u32
    ensures { result ≡ sub_f a b }
{
    to_cell(of_cell(a) - of_cell(b))
}

pub fn mul_f(a: u32, b: u32) -> u32
    ensures { result ≡ mul_f a b }
{
    to_cell(of_cell(a) * of_cell(b))
}

pub fn div_f(a: u32, b: u32) -> u32
    ensures { result ≡ div_f a b }
{
    to_cell(of_cell(a) / of_cell(b))
}

// 1.0 or 0.0
pub fn flag(b: bool) -> u32
    ensures { result ≡ flag b }
{
    if b { 0x3f80_0000 } else { 0 }
}

// +0 and -0, and nothing else
pub fn is_zero(x: u32) -> bool
    ensures { result ≡ is_zero x }
{
    of_cell(x) == 0.0
}

pub fn eq_f(a: u32, b: u32) -> u32
    ensures { result ≡ eq_f a b }
{
    flag(of_cell(a) == of_cell(b))
}

pub fn ne_f(a: u32, b: u32) -> u32
    ensures { result ≡ ne_f a b }
{
    flag(of_cell(a) != of_cell(b))
}

pub fn le_f(a: u32, b: u32) -> u32
    ensures { result ≡ le_f a b }
{
    flag(of_cell(a) <= of_cell(b))
}

pub fn ge_f(a: u32, b: u32) -> u32
    ensures { result ≡ ge_f a b }
{
    flag(of_cell(a) >= of_cell(b))
}

pub fn lt_f(a: u32, b: u32) -> u32
    ensures { result ≡ lt_f a b }
{
    flag(of_cell(a) < of_cell(b))
}

pub fn gt_f(a: u32, b: u32) -> u32
    ensures { result ≡ gt_f a b }
{
    flag(of_cell(a) > of_cell(b))
}

// `&` and `|` on bools, not `&&` and `||`: no branch, in the code and in the proof.
pub fn and_f(a: u32, b: u32) -> u32
    ensures { result ≡ and_f a b }
{
    flag(!is_zero(a) & !is_zero(b))
}

pub fn or_f(a: u32, b: u32) -> u32
    ensures { result ≡ or_f a b }
{
    flag(!is_zero(a) | !is_zero(b))
}

pub fn not_f(a: u32) -> u32
    ensures { result ≡ not_f a }
{
    flag(is_zero(a))
}

// The magnitude of a cell's float in units of 2^-23. The exponent's field is that of a number from 1 to below 2^31.
fn scaled_up(x: u32) -> u64
    requires { (127 ≤ x % 2147483648 / 8388608) × (x % 2147483648 / 8388608 < 158) }
    ensures { result ≡ scaled x }
{
    let e = x % 0x8000_0000 / 0x80_0000;
    u64::from(0x80_0000 + x % 0x80_0000) << (e - 127)
}

// The Rust's `as i32`: toward zero, to the ends of the range, 0 for a NaN. `e` is the exponent's field. Only what lies beyond the range is left to std,
// whose way goes over `f64` and takes twice the instructions.
pub fn to_i32(x: u32) -> i32
    ensures { result ≡ whole x }
{
    let e = x % 0x8000_0000 / 0x80_0000;
    if e < 127 {
        return 0;
    }
    if e >= 158 {
        return std::num::saturating_f32_to_i32(of_cell(x));
    }
    let n = (scaled_up(x) >> 23) as i32;
    if x >= 0x8000_0000 { 0 - n } else { n }
}

pub fn bit_and_f(a: u32, b: u32) -> u32
    ensures { result ≡ bit_and_f a b }
{
    to_cell(std::num::nearest_i32_to_f32(to_i32(a) & to_i32(b)))
}

pub fn bit_or_f(a: u32, b: u32) -> u32
    ensures { result ≡ bit_or_f a b }
{
    to_cell(std::num::nearest_i32_to_f32(to_i32(a) | to_i32(b)))
}

// ---- vectors, by their three cells

// From +0, so that three products of -0 give +0.
pub fn mul_v(a: [u32; 3], b: [u32; 3]) -> u32
    ensures { result ≡ on_vectors mul_v a b }
{
    let [a0, a1, a2] = a;
    let [b0, b1, b2] = b;
    to_cell(0.0 + of_cell(a0) * of_cell(b0) + of_cell(a1) * of_cell(b1) + of_cell(a2) * of_cell(b2))
}

// Each component as a float: +0 and -0 are the same, and a NaN isn't itself, so that no derived equality says it.
pub fn same_v(a: [u32; 3], b: [u32; 3]) -> bool
    ensures { result ≡ on_vectors same_v a b }
{
    let [a0, a1, a2] = a;
    let [b0, b1, b2] = b;
    (of_cell(a0) == of_cell(b0)) & (of_cell(a1) == of_cell(b1)) & (of_cell(a2) == of_cell(b2))
}

pub fn eq_v(a: [u32; 3], b: [u32; 3]) -> u32
    ensures { result ≡ on_vectors eq_v a b }
{
    flag(same_v(a, b))
}

pub fn ne_v(a: [u32; 3], b: [u32; 3]) -> u32
    ensures { result ≡ on_vectors ne_v a b }
{
    flag(!same_v(a, b))
}

pub fn not_v(a: [u32; 3]) -> u32
    ensures { result ≡ on_vector not_v a }
{
    let [a0, a1, a2] = a;
    flag(is_zero(a0) & is_zero(a1) & is_zero(a2))
}

// ---- entity, string and function numbers

pub fn eq_n(a: u32, b: u32) -> u32
    ensures { result ≡ eq_n a b }
{
    flag(a == b)
}

pub fn ne_n(a: u32, b: u32) -> u32
    ensures { result ≡ ne_n a b }
{
    flag(a != b)
}

pub fn not_n(a: u32) -> u32
    ensures { result ≡ not_n a }
{
    flag(a == 0)
}

// ---- by opcode, which may be any number and so is no enum: 0 where it is none of those here. By a `match`: a table would hand functions out

// Two floats: the result of MulF, Div, AddF, SubF, the comparisons, And, Or, BitAnd, BitOr.
#[tactic(auto, using(crate::proofs::Opcodes::float_by_number, std::proofs::lemmas::Bool::Decides::nat_tests))]
pub fn float_op(op: u16, a: u32, b: u32) -> u32
    ensures { result ≡ float_op op a b }
{
    match op {
        ops::MUL_F => mul_f(a, b),
        ops::DIV => div_f(a, b),
        ops::ADD_F => add_f(a, b),
        ops::SUB_F => sub_f(a, b),
        ops::EQ_F => eq_f(a, b),
        ops::NE_F => ne_f(a, b),
        ops::LE => le_f(a, b),
        ops::GE => ge_f(a, b),
        ops::LT => lt_f(a, b),
        ops::GT => gt_f(a, b),
        ops::AND => and_f(a, b),
        ops::OR => or_f(a, b),
        ops::BIT_AND => bit_and_f(a, b),
        ops::BIT_OR => bit_or_f(a, b),
        _ => 0,
    }
}

// One component of each operand: a component of the result of MulFV, MulVF, AddV, SubV.
#[tactic(auto, using(crate::proofs::Opcodes::component_by_number))]
pub fn component_op(op: u16, x: u32, y: u32) -> u32
    ensures { result ≡ component_op op x y }
{
    match op {
        ops::MUL_FV | ops::MUL_VF => mul_f(x, y),
        ops::ADD_V => add_f(x, y),
        ops::SUB_V => sub_f(x, y),
        _ => 0,
    }
}

// Two vectors: the result of MulV, EqV, NeV.
#[tactic(auto, using(crate::proofs::Opcodes::vectors_by_number))]
pub fn vectors_to_float_op(op: u16, a: [u32; 3], b: [u32; 3]) -> u32
    ensures { result ≡ on_vectors (vectors_to_float_op op) a b }
{
    match op {
        ops::MUL_V => mul_v(a, b),
        ops::EQ_V => eq_v(a, b),
        ops::NE_V => ne_v(a, b),
        _ => 0,
    }
}

// Two numbers: the result of EqEnt, EqFnc, NeEnt, NeFnc.
#[tactic(auto, using(crate::proofs::Opcodes::value_by_number))]
pub fn value_op(op: u16, a: u32, b: u32) -> u32
    ensures { result ≡ value_op op a b }
{
    match op {
        ops::EQ_ENT | ops::EQ_FNC => eq_n(a, b),
        ops::NE_ENT | ops::NE_FNC => ne_n(a, b),
        _ => 0,
    }
}

// One value: the result of NotF, NotEnt, NotFnc.
#[tactic(auto, using(crate::proofs::Opcodes::not_by_number))]
pub fn not_op(op: u16, a: u32) -> u32
    ensures { result ≡ not_op op a }
{
    match op {
        ops::NOT_F => not_f(a),
        ops::NOT_ENT | ops::NOT_FNC => not_n(a),
        _ => 0,
    }
}
