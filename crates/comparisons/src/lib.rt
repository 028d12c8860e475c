// Comparisons of entities and functions by number, and Not but of a string. A function here stands for the Rust's functions that its comment lists.
// Opcodes and types are numbers and no enum: each contract holds for every number, whatever the file has there.
#![tactic(auto)]

ghost use Rattle.std.specs.Prelude.{◌≡◌, ◌≤◌, length};
ghost use Rattle.definition.specs.Statements.{values_effect, negates_effect, negates_v_effect};
ghost use Rattle.floats.specs.Opcodes.{value_op, not_op};
ghost use Rattle.typed.specs.Typing.{typing};
ghost use Rattle.globals.specs.Effects.{after, effect_on};

use definition::refusal::Refusal;
use typed::{FLOAT, Operands, Typing, VECTOR};

// op_eq_ent, op_eq_fnc, op_ne_ent, op_ne_fnc; t is the operands' type.
#[tactic(auto, using(definition::proofs::RefusalLaws::numbered, typed::proofs::Laws::judge_three, typed::proofs::Laws::reach, typed::proofs::Laws::read_reach), unfolding(typed::specs::Checking::first, globals::specs::Effects::effect_on, definition::specs::Statements::values_effect))]
pub fn op_values(
    globals: Typing,
    cells: &mut [u32],
    op: u16,
    t: u16,
    at: Operands,
) -> Result<(), Refusal>
    requires { globals.count ≤ length cells.old }
    ensures { after result cells.new ≡ effect_on (values_effect t (value_op op) (typing globals.entry.defs.now globals.entry.count) at.a at.b at.c cells.old) cells.old }
{
    let natural = typed::must_be_natural(t);
    globals.check_read(cells, natural, t, at.a)?;
    globals.check_move(cells, natural, t, at.b, FLOAT, at.c)?;
    cells[at.c] = floats::value_op(op, cells[at.a], cells[at.b]);
    Ok(())
}

// op_not_f, op_not_ent, op_not_fnc; t is the operand's type.
#[tactic(auto, using(definition::proofs::RefusalLaws::numbered, crate::proofs::Comparisons::negates_is, globals::proofs::Statements::reach_move), unfolding(typed::specs::Checking::first, globals::specs::Effects::effect_on))]
pub fn op_nots(
    globals: Typing,
    cells: &mut [u32],
    op: u16,
    t: u16,
    at: Operands,
) -> Result<(), Refusal>
    requires { globals.count ≤ length cells.old }
    ensures { after result cells.new ≡ effect_on (negates_effect t (not_op op) (typing globals.entry.defs.now globals.entry.count) at.a at.b at.c cells.old) cells.old }
{
    let natural = typed::must_be_natural(t);
    globals::check_unary(globals, cells, at.b, natural, t, at.a, FLOAT, at.c)?;
    cells[at.c] = floats::not_op(op, cells[at.a]);
    Ok(())
}

// One float is written, as in pr_exec.c.
#[tactic(auto, using(definition::proofs::RefusalLaws::numbered, typed::proofs::Laws::judge_both, typed::proofs::Laws::reach, typed::proofs::Laws::read_plain), unfolding(definition::specs::Checks::judge, typed::specs::Checking::first, globals::specs::Effects::effect_on, definition::specs::Statements::negates_v_effect))]
pub fn op_not_v(globals: Typing, cells: &mut [u32], at: Operands) -> Result<(), Refusal>
    requires { globals.count ≤ length cells.old }
    ensures { after result cells.new ≡ effect_on (negates_v_effect (typing globals.entry.defs.now globals.entry.count) at.a at.b at.c cells.old) cells.old }
{
    globals::check_unary(globals, cells, at.b, false, VECTOR, at.a, FLOAT, at.c)?;
    cells[at.c] = floats::not_v([cells[at.a], cells[at.a + 1], cells[at.a + 2]]);
    Ok(())
}
