// The header, and what it may say: the conditions of refusals 1, 4, 10, 11 and 13.
ghost use Rattle.std.specs.Prelude.{◌≡◌, ◌+◌, ◌≤◌, ◌<◌, length};
ghost use Rattle.definition.specs.File.{least_cells, lump_at, file_of, length_fits, lump_fits, lumps_fit, cells_fit, entity_fits, settings_fit, standard};
ghost use Rattle.definition.specs.Load.{recorded_in};
ghost use Rattle.definition.specs.Machine.{entities_fit};

use crate::reads;
use definition::{
    CELL_SIZE, CHECK_NUMBER, DEFINITION_SIZE, FUNCTION_SIZE, FileRecord, GREATEST_CHECK_NUMBER,
    GREATEST_DEPTH, GREATEST_LIMIT, HEADER_LENGTH, LEAST_CELLS, LEAST_ENTITY_CELLS, LONGEST_FILE,
    Lump, MOST_CELLS, MOST_ENTITIES, SAVED_STORE, STATEMENT_SIZE, Settings,
};

fn lump_at(file: &[u8], at: usize) -> Lump
    requires { at + 8 ≤ length file.now }
    ensures { result ≡ lump_at file.now at }
{
    Lump {
        offset: reads::u32_at(file, at) as usize,
        count: reads::u32_at(file, at + 4) as usize,
    }
}

// The header of a file that isn't too short to have one: refusals 1 and 13 come first.
#[tactic(auto, unfolding(definition::specs::File::file_of))]
pub fn file_of(file: &[u8]) -> FileRecord
    requires { 60 ≤ length file.now }
    ensures { result ≡ file_of file.now }
{
    FileRecord {
        length: file.len(),
        statements: lump_at(file, 8),
        globaldefs: lump_at(file, 16),
        fielddefs: lump_at(file, 24),
        functions: lump_at(file, 32),
        strings: lump_at(file, 40),
        globals: lump_at(file, 48),
        entityfields: reads::u32_at(file, 56) as usize,
    }
}

pub fn length_fits(r: FileRecord) -> bool
    ensures { result ≡ length_fits r }
{
    (HEADER_LENGTH..=LONGEST_FILE).contains(&r.length)
}

// The sum can't wrap: both numbers are below 2^31 where it is made.
pub fn lump_fits(size: usize, end: usize, lump: Lump) -> bool
    requires { size ≤ 36 }
    ensures { result ≡ lump_fits size end lump }
{
    if 2147483648 <= lump.offset {
        return false;
    }
    if 2147483648 <= lump.count {
        return false;
    }
    (lump.count == 0) | (lump.offset + size * lump.count <= end)
}

#[tactic(auto, unfolding(definition::specs::File::lumps_fit))]
pub fn lumps_fit(r: FileRecord) -> bool
    ensures { result ≡ lumps_fit r }
{
    let end = r.length;
    lump_fits(STATEMENT_SIZE, end, r.statements)
        & lump_fits(DEFINITION_SIZE, end, r.globaldefs)
        & lump_fits(DEFINITION_SIZE, end, r.fielddefs)
        & lump_fits(FUNCTION_SIZE, end, r.functions)
        & lump_fits(1, end, r.strings)
        & lump_fits(CELL_SIZE, end, r.globals)
}

pub fn cells_fit(least: usize, r: FileRecord) -> bool
    ensures { result ≡ cells_fit least r }
{
    (least..=MOST_CELLS).contains(&r.globals.count)
}

pub fn entity_fits(r: FileRecord) -> bool
    ensures { result ≡ entity_fits r }
{
    (LEAST_ENTITY_CELLS <= r.entityfields) & !(2147483648 <= r.entityfields)
}

// Settings in range (document 02, R-11).
#[tactic(auto, unfolding(definition::specs::File::settings_fit))]
pub fn settings_fit(s: Settings) -> bool
    ensures { result ≡ settings_fit s }
{
    (s.check_number <= GREATEST_CHECK_NUMBER)
        & (1..=GREATEST_DEPTH).contains(&s.depth)
        & (s.saved <= SAVED_STORE)
        & (1..=GREATEST_LIMIT).contains(&s.limit)
}

// Those of document 01.
pub fn standard() -> Settings
    ensures { result ≡ standard }
{
    Settings {
        check_number: CHECK_NUMBER as usize,
        depth: GREATEST_DEPTH,
        saved: SAVED_STORE,
        limit: GREATEST_LIMIT,
    }
}

// So many entities of so many cells each have room in the lent entity cells (document 02, R-3). The product can't wrap: where it is made the number is
// at most 600, and refusal 11 keeps the size below 2^31.
#[tactic(auto, unfolding(definition::specs::Machine::entities_fit))]
pub fn entities_fit(number: usize, size: usize, lent: usize) -> bool
    requires { size < 2147483648 }
    ensures { result ≡ entities_fit number size lent }
{
    if MOST_ENTITIES < number {
        return false;
    }
    number * size <= lent
}

// The first of 13's conditions. A state can record no file that is too short for a header.
pub fn recorded_in(file: &[u8], r: FileRecord, lent: usize) -> bool
    ensures { result ≡ recorded_in least_cells file.now r lent }
{
    if file.len() < HEADER_LENGTH {
        return false;
    }
    (r == file_of(file))
        & length_fits(r)
        & lumps_fit(r)
        & cells_fit(LEAST_CELLS, r)
        & entity_fits(r)
        & (r.globals.count <= lent)
}
