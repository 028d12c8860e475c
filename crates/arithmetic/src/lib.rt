// Float and vector arithmetic, comparisons of floats and vectors, and the rounding builtins. A function here stands for the Rust's functions that its comment lists.
// Opcodes, types and the numbers of builtins are numbers and no enum: each contract holds for every number, whatever the file has there.
#![tactic(auto)]

ghost use Rattle.std.specs.Prelude.{◌≡◌, ◌≤◌, length};
ghost use Rattle.definition.specs.Cells.{float, cell_of};
ghost use Rattle.definition.specs.Statements.{floats_effect, vectors_effect, vectors_to_float_effect, rounding_effect};
ghost use Rattle.definition.specs.Refusals.{refusal_in};
ghost use Rattle.floats.specs.Opcodes.{float_op, component_op, vectors_to_float_op};
ghost use Rattle.floats.specs.Rounding.{rounding_op};
ghost use Rattle.typed.specs.Typing.{typing};
ghost use Rattle.typed.specs.Checking.{three_refusal, Reaches};
ghost use Rattle.globals.specs.Effects.{after, effect_on};
ghost use Rattle.arithmetic.specs.Components.{components};

use definition::refusal::Refusal;
use functions::fetch;
use typed::{FLOAT, Operands, Typing, VECTOR};

// Three cells, each as a float. Where there are no definitions, an operand below the count passes and is its own cell.
fn check_operands(globals: Typing, x: u16, y: u16, z: u16) -> Result<(), Refusal>
    requires { globals.count ≤ 32768 }
    ensures { refusal_in result ≡ three_refusal (typing globals.entry.defs.now globals.entry.count) float (cell_of x) float (cell_of y) float (cell_of z) }
{
    if globals.defs.is_empty()
        & ((x as usize) < globals.count)
        & ((y as usize) < globals.count)
        & ((z as usize) < globals.count)
    {
        return Ok(());
    }
    globals.check_three(
        FLOAT,
        fetch::cell_of(x),
        FLOAT,
        fetch::cell_of(y),
        FLOAT,
        fetch::cell_of(z),
    )
}

// op_mul_f, op_div, op_add_f, op_sub_f, op_eq_f, op_ne_f, op_le, op_ge, op_lt, op_gt, op_and, op_or, op_bit_and, op_bit_or.
#[tactic(auto, using(definition::proofs::RefusalLaws::numbered, crate::proofs::Arithmetic::floats_is, crate::proofs::Arithmetic::reach_three, crate::proofs::Arithmetic::cell_own), unfolding(globals::specs::Effects::effect_on))]
pub fn op_floats(
    globals: Typing,
    cells: &mut [u32],
    op: u16,
    x: u16,
    y: u16,
    z: u16,
) -> Result<(), Refusal>
    requires { (globals.count ≤ length cells.old) × (globals.count ≤ 32768) }
    ensures { after result cells.new ≡ effect_on (floats_effect (float_op op) (typing globals.entry.defs.now globals.entry.count) (cell_of x) (cell_of y) (cell_of z) cells.old) cells.old }
{
    check_operands(globals, x, y, z)?;
    let (a, b, c) = (x as usize, y as usize, z as usize);
    cells[c] = floats::float_op(op, cells[a], cells[b]);
    Ok(())
}

// The components of an operand: a float serves for all three.
fn components(cells: &[u32], t: u16, cell: usize) -> [u32; 3]
    requires { Reaches t cell (length cells.now) }
    ensures { result ≡ components t cell cells.now }
{
    if t == VECTOR {
        [cells[cell], cells[cell + 1], cells[cell + 2]]
    } else {
        [cells[cell]; 3]
    }
}

// op_mul_fv, op_mul_vf, op_add_v, op_sub_v; ta and tb are the operands' types. All is read before it is written.
#[tactic(auto, using(definition::proofs::RefusalLaws::numbered, crate::proofs::Arithmetic::vectors_is, crate::proofs::Arithmetic::written_three, crate::proofs::Arithmetic::reach_three), unfolding(globals::specs::Effects::effect_on))]
pub fn op_vectors(
    globals: Typing,
    cells: &mut [u32],
    op: u16,
    ta: u16,
    tb: u16,
    at: Operands,
) -> Result<(), Refusal>
    requires { globals.count ≤ length cells.old }
    ensures { after result cells.new ≡ effect_on (vectors_effect ta tb (component_op op) (typing globals.entry.defs.now globals.entry.count) at.a at.b at.c cells.old) cells.old }
{
    globals.check_three(ta, at.a, tb, at.b, VECTOR, at.c)?;
    let x = components(cells, ta, at.a);
    let y = components(cells, tb, at.b);
    for i in 0..3 {
        cells[at.c + i] = floats::component_op(op, x[i], y[i]);
    }
    Ok(())
}

// op_mul_v, op_eq_v, op_ne_v.
#[tactic(auto, using(definition::proofs::RefusalLaws::numbered, crate::proofs::Arithmetic::vectors_to_float_is, crate::proofs::Arithmetic::reach_three), unfolding(globals::specs::Effects::effect_on))]
pub fn op_vectors_to_float(
    globals: Typing,
    cells: &mut [u32],
    op: u16,
    at: Operands,
) -> Result<(), Refusal>
    requires { globals.count ≤ length cells.old }
    ensures { after result cells.new ≡ effect_on (vectors_to_float_effect (vectors_to_float_op op) (typing globals.entry.defs.now globals.entry.count) at.a at.b at.c cells.old) cells.old }
{
    globals.check_three(VECTOR, at.a, VECTOR, at.b, FLOAT, at.c)?;
    let x = components(cells, VECTOR, at.a);
    let y = components(cells, VECTOR, at.b);
    cells[at.c] = floats::vectors_to_float_op(op, x, y);
    Ok(())
}

// The cells of a call's first argument and of its return value (GLOBAL_ADDR_ARG_0, GLOBAL_ADDR_RETURN).
const ARGUMENT: usize = 4;

const RETURN: usize = 1;

// builtin_r_int, builtin_floor, builtin_ceil, builtin_f_abs, by number (document 02, R-1).
#[tactic(auto, using(definition::proofs::RefusalLaws::numbered, typed::proofs::Laws::judge_both, typed::proofs::Laws::cell_reach), unfolding(typed::specs::Checking::first, globals::specs::Effects::effect_on, definition::specs::Statements::rounding_effect, definition::specs::Cells::access))]
pub fn builtin_rounding(globals: Typing, cells: &mut [u32], n: u32) -> Result<(), Refusal>
    requires { globals.count ≤ length cells.old }
    ensures { after result cells.new ≡ effect_on (rounding_effect (rounding_op n) (typing globals.entry.defs.now globals.entry.count) cells.old) cells.old }
{
    globals.check_cell(FLOAT, ARGUMENT)?;
    globals.check_cell(FLOAT, RETURN)?;
    cells[RETURN] = floats::rounding::rounding(n, cells[ARGUMENT]);
    Ok(())
}
