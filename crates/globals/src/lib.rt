// What the statements that write cells share: all is checked before anything is written. That the count of cells is at most that of the lent ones is asked by
// each function that reads or writes them: they are lent beside the `Typing`, so that no field of it can say so.
// Types are numbers and no enum: each contract holds for every number, whatever the file has there.
#![tactic(auto)]

ghost use Rattle.std.specs.Prelude.{◌≡◌, ◌≤◌, length};
ghost use Rattle.definition.specs.Checks.{judge};
ghost use Rattle.definition.specs.Refusals.{refusal_in};
ghost use Rattle.definition.specs.Statements.{unused};
ghost use Rattle.typed.specs.Typing.{typing};
ghost use Rattle.typed.specs.Checking.{first, move_refusal};

use definition::refusal::Refusal;
use typed::Typing;

// The operand that a Store or a Not doesn't use must be 0.
#[tactic(auto, unfolding(definition::specs::Checks::judge))]
pub fn check_unused(cell: usize) -> Result<(), Refusal>
    ensures { refusal_in result ≡ judge (unused cell) }
{
    if cell == 0 {
        Ok(())
    } else {
        Err(Refusal::UnusedOperand)
    }
}

// A statement with an unused operand: it reads a and writes b.
#[inline(always)]
#[tactic(auto, using(definition::proofs::RefusalLaws::numbered), unfolding(typed::specs::Checking::first))]
pub fn check_unary(
    g: Typing,
    cells: &[u32],
    extra: usize,
    natural: bool,
    ta: u16,
    a: usize,
    tb: u16,
    b: usize,
) -> Result<(), Refusal>
    requires { g.count ≤ length cells.now }
    ensures { refusal_in result ≡ first (judge (unused extra)) (move_refusal (typing g.entry.defs.now g.entry.count) natural ta a tb b cells.now) }
{
    check_unused(extra)?;
    g.check_move(cells, natural, ta, a, tb, b)
}
