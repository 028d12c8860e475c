// Fetching a statement, and what its operands mean. A position is signed; once fetched, a statement is known by its index.
ghost use Rattle.std.specs.Prelude.{◌≡◌, ℕ, ◌<◌, List, pos, ◌+ℤ◌};
ghost use Rattle.definition.specs.declared.Statement.{Statement};
ghost use Rattle.definition.specs.Cells.{signed, cell_of};
ghost use Rattle.definition.specs.Refusals.{checked};
ghost use Rattle.definition.specs.Statements.{place_of};
ghost use Rattle.functions.specs.Answers.{Reads, fetched};
ghost use Rattle.functions.specs.Parts.{statements_in};

use crate::{ops, reads};
use definition::refusal::Refusal;
use definition::{STATEMENT_SIZE, Statement};

// A signed number as one of n places, n where it is negative. `usize::try_from` would take two instructions more at each fetch.
pub fn place_of(n: usize, p: i64) -> usize
    ensures { result ≡ place_of n p }
{
    if p < 0 { n } else { p as usize }
}

// The statement at a position among so many, and its index; `read` reads the statement at an index.
pub fn fetch_by<F: Fn(usize) -> Statement>(
    count: usize,
    pc: i64,
    read: F,
) -> Result<(usize, Statement), Refusal>
    requires { (k : ℕ) → k < count → F.pre read k }
    ensures { (statements : List Statement) → Reads (F.post read) count statements → checked result ≡ fetched statements pc }
{
    let k = place_of(count, pc);
    if count <= k {
        return Err(Refusal::Position);
    }
    let statement = read(k);
    if ops::is_opcode(statement.opcode) {
        Ok((k, statement))
    } else {
        Err(Refusal::Opcode)
    }
}

pub fn fetch(statements: &[u8], pc: i64) -> Result<(usize, Statement), Refusal>
    ensures { checked result ≡ fetched (statements_in statements.now) pc }
{
    fetch_by(statements.len() / STATEMENT_SIZE, pc, |k| {
        reads::read_statement(statements, STATEMENT_SIZE * k)
    })
}

// The cell that an operand names.
#[tactic(auto, unfolding(definition::specs::Cells::cell_of))]
pub fn cell_of(x: u16) -> usize
    ensures { result ≡ cell_of x }
{
    if x < 32768 {
        usize::from(x)
    } else {
        usize::from(x) + 65536
    }
}

// The signed value of an operand.
#[tactic(auto, unfolding(definition::specs::Cells::signed))]
pub fn signed(bits: u16) -> i64
    ensures { result ≡ signed bits }
{
    i64::from(bits.cast_signed())
}

// The position after statement k: no lump has more records than the bound, which is asked here and of each branch; a type for so small a number would say no more.
pub fn after(k: usize) -> i64
    requires { k < 2147483648 }
    ensures { result ≡ pos k +ℤ pos 1 }
{
    (k + 1) as i64
}

// The position that a jump from statement k leads to.
pub fn jump(k: usize, by: u16) -> i64
    requires { k < 2147483648 }
    ensures { result ≡ pos k +ℤ signed by }
{
    (k as i64) + signed(by)
}
