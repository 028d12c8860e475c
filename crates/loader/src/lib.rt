// The checks of a load in the order of document 01's table, and the filling of the lent cells (progs/mod.rs, load).
#![tactic(auto)]

ghost use Rattle.std.specs.Prelude.{◌≡◌, [], ◌∷◌, ◌++◌, ◌/◌, ◌≤◌, length, drop};
ghost use Rattle.definition.specs.Checks.{judge, ◌otherwise◌};
ghost use Rattle.definition.specs.Refusals.{number, refusal_in};
ghost use Rattle.definition.specs.Load.{header_conditions, cell_conditions, file_conditions};
ghost use Rattle.functions.specs.Parts.{cells_in};

use definition::refusal::Refusal;
use definition::{FileRecord, HEADER_LENGTH, LONGEST_FILE, SAVED_STORE, VERSION};
use functions::{header, parts, reads};

pub mod records;

// A condition's refusal where it fails.
#[tactic(auto, unfolding(definition::specs::Checks::judge))]
fn otherwise(holds: bool, refusal: Refusal) -> Result<(), Refusal>
    ensures { refusal_in result ≡ judge ((holds otherwise number refusal) ∷ []) }
{
    if holds { Ok(()) } else { Err(refusal) }
}

// The row "header", for files of this check number.
#[tactic(auto, using(definition::proofs::RefusalLaws::numbered), unfolding(definition::specs::Checks::judge, definition::specs::Load::header_conditions, definition::specs::File::file_of))]
fn check_header(file: &[u8], check: usize) -> Result<(), Refusal>
    ensures { refusal_in result ≡ judge (header_conditions check file.now) }
{
    otherwise(
        (HEADER_LENGTH..=LONGEST_FILE).contains(&file.len()),
        Refusal::FileLength,
    )?;
    otherwise(reads::u32_at(file, 0) == VERSION, Refusal::Version)?;
    otherwise(
        reads::u32_at(file, 4) as usize == check,
        Refusal::CheckNumber,
    )?;
    otherwise(header::lumps_fit(header::file_of(file)), Refusal::Lump)
}

// The row "cells".
#[tactic(auto, using(definition::proofs::RefusalLaws::numbered), unfolding(definition::specs::Checks::judge, definition::specs::Load::cell_conditions))]
fn check_cells(least: usize, r: FileRecord, lent: usize, store: usize) -> Result<(), Refusal>
    ensures { refusal_in result ≡ judge (cell_conditions least r lent store) }
{
    otherwise(header::cells_fit(least, r), Refusal::CellCount)?;
    otherwise(header::entity_fits(r), Refusal::EntityCellCount)?;
    otherwise(
        (r.globals.count <= lent) & (SAVED_STORE <= store),
        Refusal::LentTooShort,
    )
}

// The first condition that a load of a file fails, beside so many entities and so many lent cells of each store; `least` is the least number of cells of a
// file, `check` the check number that it must have.
#[tactic(auto, using(definition::proofs::RefusalLaws::numbered, definition::proofs::CheckLaws::judge_append))]
pub fn check_file(
    file: &[u8],
    least: usize,
    check: usize,
    number: usize,
    lent: usize,
    store: usize,
    entities: usize,
) -> Result<(), Refusal>
    ensures { refusal_in result ≡ judge (file_conditions least check file.now number lent store entities) }
{
    check_header(file, check)?;
    let r = header::file_of(file);
    records::check_records(file, r)?;
    check_cells(least, r, lent, store)?;
    otherwise(
        header::entities_fit(number, r.entityfields, entities),
        Refusal::State,
    )
}

// The lent cells become the file's starting cells, from 0 on; the rest stay.
pub fn fill(globals: &[u8], cells: &mut [u32])
    requires { length globals.now / 4 ≤ length cells.old }
    ensures { cells.new ≡ cells_in globals.now ++ drop (length globals.now / 4) cells.old }
{
    parts::fill(globals, cells);
}
