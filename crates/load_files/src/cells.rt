// The cells of a load file: "cells 28 to 63 take a draw modulo 256 as a float, the others 0".
ghost use Rattle.std.specs.Prelude.{◌≡◌, ◌%◌};
ghost use Rattle.definition.specs.Written.{u32_bytes, bytes_of};
ghost use Rattle.text.specs.Output.{Room};
ghost use Rattle.text.specs.Writing.{at_place, Wrote};
ghost use Rattle.load_files.specs.Draws.{drawn};
ghost use Rattle.load_files.specs.LoadFile.{float_of, drawn_cell, cells_of};

use crate::draws;
use definition::CELL_SIZE;
use text::Writer;

pub const CELL_COUNT: usize = 64;

pub const FIRST_DRAWN: u16 = 28;

pub const DRAWN_COUNT: usize = 36;

fn cell_of(drawn: u32) -> u32
    ensures { result ≡ float_of (drawn % 256) }
{
    floats::to_cell(std::num::nearest_u32_to_f32(drawn % 256))
}

#[tactic(auto, using(crate::proofs::Drawing::drawn_all))]
fn write_floats(out: &mut Writer<'_>, seed: u32)
    requires { Room (bytes_of u32_bytes (drawn drawn_cell 1 36 seed)) (at_place out.old) }
    ensures { Wrote (bytes_of u32_bytes (drawn drawn_cell 1 36 seed)) out.old out.new }
{
    let mut s = seed;
    for _ in 0..DRAWN_COUNT {
        s = draws::draw(s);
        writer::write_u32(out, cell_of(s));
    }
}

pub fn write_cells(out: &mut Writer<'_>, seed: u32)
    requires { Room (bytes_of u32_bytes (cells_of seed)) (at_place out.old) }
    ensures { Wrote (bytes_of u32_bytes (cells_of seed)) out.old out.new }
{
    out.write_bytes(&[0u8; CELL_SIZE * (CELL_COUNT - DRAWN_COUNT)]);
    write_floats(out, seed);
}
