// Load files (document 02, R-10): the program file of a seed and a number of drawn statements, in R-6's form, in a lent output buffer.
#![tactic(auto)]

ghost use Rattle.std.specs.Prelude.{◌≡◌, ◌+◌, ◌≤◌};
ghost use Rattle.definition.specs.Written.{write_outcome, outcome_of};
ghost use Rattle.text.specs.Output.{Room};
ghost use Rattle.text.specs.Writing.{at_place, Wrote};
ghost use Rattle.writer.specs.Outcomes.{writing};
ghost use Rattle.load_files.specs.LoadFile.{bytes_for, make_file};
ghost use Rattle.load_files.specs.Laws.{lumps_for, counted, layout_for};

use cells::DRAWN_COUNT;
use definition::refusal::Refusal;
use definition::{CHECK_NUMBER, FUNCTION_SIZE, FileRecord, Lump};
use functions::fetch;
use text::Writer;

pub mod cells;
pub mod draws;
pub mod statements;

// "With n from 1 to 1,000"
pub const MOST_STATEMENTS: usize = 1_000;

// "cells per entity are 105"
const ENTITY_CELLS: usize = 105;

// The longest load file.
pub const LONGEST: usize = 8_405;

// So many records, whose place is still to be found.
fn counted(count: usize) -> Lump
    ensures { result ≡ counted count }
{
    Lump { offset: 0, count }
}

// The lumps of a load file: statements with a Done before those that are drawn and a Return behind them, no definitions, two functions, a byte of
// strings, 64 cells, 105 cells per entity.
fn lumps(n: usize) -> FileRecord
    requires { n ≤ 1000 }
    ensures { result ≡ layout_for n }
{
    writer::laid_out(FileRecord {
        length: 0,
        statements: counted(n + 2),
        globaldefs: counted(0),
        fielddefs: counted(0),
        functions: counted(2),
        strings: counted(1),
        globals: counted(cells::CELL_COUNT),
        entityfields: ENTITY_CELLS,
    })
}

// The lumps' bytes. The cells stand last and are drawn first, so the statements' draws go on from where the cells' end. Function 0 is all zeros, and so is
// function 1 but for its first statement, 1.
fn write_lumps(out: &mut Writer<'_>, seed: u32, n: usize)
    requires { Room (lumps_for seed n) (at_place out.old) }
    ensures { Wrote (lumps_for seed n) out.old out.new }
{
    // The lump of both, whose length is fixed.
    let mut functions = [0u8; 2 * FUNCTION_SIZE];
    functions[FUNCTION_SIZE] = 1;
    let s = draws::skip(seed, DRAWN_COUNT);
    statements::write_statements(out, n, s);
    out.write_bytes(&functions);
    out.write_byte(0);
    cells::write_cells(out, seed);
}

// At the front of the output buffer, or 34 and nothing.
#[tactic(auto, using(writer::proofs::Program::no_room, writer::proofs::Program::small, writing_laws::specs::Written::length_header, crate::specs::Laws::length_file, crate::specs::Laws::length_lumps), unfolding(definition::specs::Written::layout))]
fn write_file(out: &mut [u8], seed: u32, n: usize) -> Result<usize, Refusal>
    requires { n ≤ 1000 }
    ensures { outcome_of result out.new ≡ writing (bytes_for seed n) out.old }
{
    let laid = lumps(n);
    if out.len() < laid.length {
        return Err(Refusal::OutputTooShort);
    }
    let mut output = Writer { buf: out, at: 0 };
    writer::write_header(&mut output, CHECK_NUMBER, laid);
    write_lumps(&mut output, seed, n);
    Ok(output.at)
}

// "A seed of 0 or another n is refused 35, then a short output buffer 34; nothing is written."
#[tactic(auto, using(crate::proofs::Making::refused_35))]
pub fn make_file(seed: u32, n: i64, output: &mut [u8]) -> Result<usize, Refusal>
    ensures { outcome_of result output.new ≡ write_outcome output.old (make_file seed n output.old) }
{
    let count = fetch::place_of(0, n);
    if seed != 0 && (1..=MOST_STATEMENTS).contains(&count) {
        write_file(output, seed, count)
    } else {
        Err(Refusal::LoadFile)
    }
}
