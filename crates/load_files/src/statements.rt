// The statements of a load file: those that are drawn, between a Done and a Return.
ghost use Rattle.std.specs.Prelude.{◌≡◌};
ghost use Rattle.definition.specs.Written.{statement_bytes, bytes_of};
ghost use Rattle.text.specs.Output.{Room};
ghost use Rattle.text.specs.Writing.{at_place, Wrote};
ghost use Rattle.load_files.specs.Draws.{after, drawn};
ghost use Rattle.load_files.specs.LoadFile.{opcode_of, operand_of, drawn_statement, statements_from};

use crate::cells::{DRAWN_COUNT, FIRST_DRAWN};
use crate::draws;
use definition::Statement;
use functions::ops;
use text::Writer;

// An operand is one of so many cells.
const OPERANDS: u32 = DRAWN_COUNT as u32;

#[tactic(auto, unfolding(crate::specs::LoadFile::opcode_of))]
fn opcode_of(drawn: u32) -> u16
    ensures { result ≡ opcode_of drawn }
{
    match drawn % 3 {
        0 => ops::MUL_F,
        1 => ops::ADD_F,
        _ => ops::SUB_F,
    }
}

fn operand_of(drawn: u32) -> u16
    ensures { result ≡ operand_of drawn }
{
    FIRST_DRAWN + (drawn % OPERANDS) as u16
}

// "four draws each": opcode, first, second, destination. With the last of them.
#[tactic(auto, unfolding(crate::specs::LoadFile::drawn_statement, crate::specs::Draws::after))]
fn draw_statement(s: u32) -> (Statement, u32)
    ensures { (result.0 ≡ drawn_statement s) × (result.1 ≡ after 4 s) }
{
    let opcode = draws::draw(s);
    let arg1 = draws::draw(opcode);
    let arg2 = draws::draw(arg1);
    let arg3 = draws::draw(arg2);
    let statement = Statement {
        opcode: opcode_of(opcode),
        arg1: operand_of(arg1),
        arg2: operand_of(arg2),
        arg3: operand_of(arg3),
    };
    (statement, arg3)
}

#[tactic(auto, unfolding(definition::specs::Written::statement_bytes))]
fn write_statement(out: &mut Writer<'_>, statement: Statement)
    requires { Room (statement_bytes statement) (at_place out.old) }
    ensures { Wrote (statement_bytes statement) out.old out.new }
{
    writer::write_u16(out, statement.opcode);
    writer::write_u16(out, statement.arg1);
    writer::write_u16(out, statement.arg2);
    writer::write_u16(out, statement.arg3);
}

#[tactic(auto, using(crate::proofs::Drawing::drawn_all))]
fn write_drawn(out: &mut Writer<'_>, n: usize, seed: u32)
    requires { Room (bytes_of statement_bytes (drawn drawn_statement 4 n seed)) (at_place out.old) }
    ensures { Wrote (bytes_of statement_bytes (drawn drawn_statement 4 n seed)) out.old out.new }
{
    let mut s = seed;
    for _ in 0..n {
        let (statement, last) = draw_statement(s);
        write_statement(out, statement);
        s = last;
    }
}

// "statement 0 is Done 0 0 0", "statement n+1 is Return 28 0 0"
pub fn write_statements(out: &mut Writer<'_>, n: usize, s: u32)
    requires { Room (bytes_of statement_bytes (statements_from n s)) (at_place out.old) }
    ensures { Wrote (bytes_of statement_bytes (statements_from n s)) out.old out.new }
{
    let first = Statement {
        opcode: ops::DONE,
        arg1: 0,
        arg2: 0,
        arg3: 0,
    };
    let last = Statement {
        opcode: ops::RETURN,
        arg1: FIRST_DRAWN,
        ..first
    };
    write_statement(out, first);
    write_drawn(out, n, s);
    write_statement(out, last);
}
