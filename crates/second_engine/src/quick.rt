// The commonest statements, over cells that pass as floats with nothing looked up: their code is part of the loop, in which all else is a call.
ghost use Rattle.std.specs.Prelude.{◌≡◌, true, ◌*◌, ◌≤◌, ◌<◌, length, IfSome};
ghost use Rattle.definition.specs.File.{Contents, unpacked_statements};
ghost use Rattle.definition.specs.Cells.{typing_of};
ghost use Rattle.definition.specs.Statements.{Entities, shape_of, does_at};
ghost use Rattle.floats.specs.Opcodes.{float_op};
ghost use Rattle.execution.specs.Shapes.{is_floats};
ghost use Rattle.second_engine.specs.Quickly.{AllFloats, QuicklyDoes, GoesOn};

use functions::{fetch, ops};

// The position after statements that were done, and their number.
#[derive(Clone, Copy)]
pub struct Turns {
    pub pc: i64,
    pub count: u32,
}

// What arithmetic and comparisons make of two floats, if the opcode, any that the buffer has, is one of them. `floats::float_op` in its place would be a call in the loop, which misses the bars of speed.
#[tactic(auto, unfolding(definition::specs::Statements::opcodes, definition::specs::Statements::shape_of, floats::specs::Opcodes::float_op))]
fn common_op(op: u16, a: u32, b: u32) -> Option<u32>
    ensures { IfSome result (λ v. (is_floats (shape_of op) ≡ true) × (v ≡ float_op op a b)) }
{
    Some(match op {
        ops::MUL_F => floats::mul_f(a, b),
        ops::DIV => floats::div_f(a, b),
        ops::ADD_F => floats::add_f(a, b),
        ops::SUB_F => floats::sub_f(a, b),
        ops::EQ_F => floats::eq_f(a, b),
        ops::NE_F => floats::ne_f(a, b),
        ops::LE => floats::le_f(a, b),
        ops::GE => floats::ge_f(a, b),
        ops::LT => floats::lt_f(a, b),
        ops::GT => floats::gt_f(a, b),
        _ => return None,
    })
}

// The buffer may be longer than the statements, whose number is the file's. Does the statement at a position, if it is a common one and its operands are below `untyped`, the cells that pass as floats. Its result is the position
// after it.
#[tactic(auto, using(crate::proofs::QuickLaws::index_below))]
fn do_one(buffer: &[u16], count: usize, untyped: usize, cells: &mut [u32], pc: i64) -> Option<i64>
    requires count_in_bounds { (4 * count ≤ length buffer.now) × (count < 2147483648) }
    requires untyped_in_bounds { (untyped ≤ length cells.old) × (untyped ≤ 32768) }
    ensures { (k : Contents) (e : Entities) → k.statements ≡ unpacked_statements buffer.now count → AllFloats (typing_of k) untyped → QuicklyDoes result (does_at k pc e cells.old) cells.new cells.old }
{
    let Ok((k, s)) = unpacked::fetch(buffer, count, pc) else {
        return None;
    };
    let x = usize::from(s.arg1);
    if untyped <= x {
        return None;
    }
    if s.opcode == ops::IF {
        return Some(execution::branched(k, false, cells[x], s.arg2));
    }
    if s.opcode == ops::IF_NOT {
        return Some(execution::branched(k, true, cells[x], s.arg2));
    }
    let y = usize::from(s.arg2);
    let z = usize::from(s.arg3);
    if untyped <= y || untyped <= z {
        return None;
    }
    cells[z] = common_op(s.opcode, cells[x], cells[y])?;
    Some(fetch::after(k))
}

// Does statements from a position on, at most so many, as long as they are common ones.
#[tactic(auto, using(crate::proofs::QuickLaws::several))]
pub fn do_common(
    buffer: &[u16],
    count: usize,
    untyped: usize,
    cells: &mut [u32],
    pc: i64,
    most: u32,
) -> Turns
    requires count_in_bounds { (4 * count ≤ length buffer.now) × (count < 2147483648) }
    requires untyped_in_bounds { (untyped ≤ length cells.old) × (untyped ≤ 32768) }
    ensures few { result.count ≤ most }
    ensures goes { (k : Contents) (e : Entities) → k.statements ≡ unpacked_statements buffer.now count → AllFloats (typing_of k) untyped → GoesOn (λ p cs. does_at k p e cs) result.count pc cells.old result.pc cells.new }
{
    let mut at = pc;
    for done in 0..most {
        let Some(next) = do_one(buffer, count, untyped, cells, at) else {
            return Turns {
                pc: at,
                count: done,
            };
        };
        at = next;
    }
    Turns {
        pc: at,
        count: most,
    }
}
