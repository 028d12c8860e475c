// Little-endian numbers, and the records of the file.
ghost use Rattle.std.specs.Prelude.{◌≡◌, ℕ, ◌+◌, ◌≤◌, ◌<◌, List, length};
ghost use Rattle.std.proofs.Common.{lit≤};
ghost use Rattle.definition.specs.File.{byte_at, u16_at, u32_at, read_statement, read_definition, read_function, records};
ghost use Rattle.functions.specs.PartLaws.{Local, u16_local, u32_local, statement_local, definition_local, function_local};

use definition::{
    DEFINITION_SIZE, Definition, FUNCTION_SIZE, FunctionDef, STATEMENT_SIZE, Statement,
};

// A number or a record of the file: how many bytes it takes, and what they say, which no other byte changes. That the bytes are there is asked of each read, here
// and in the header: cutting an array out first would ask the same.
pub trait FromBytes: Copy {
    const SIZE: usize;

    ghost SIZE: { ℕ };

    ghost read_at: { List ℕ → ℕ → Self };

    fn read(file: &[u8], at: usize) -> Self
        requires { at + SIZE ≤ length file.now }
        ensures { result ≡ read_at file.now at };

    ghost sized: { (0 < SIZE) × (SIZE ≤ 36) };

    ghost local: { Local read_at SIZE };
}

impl FromBytes for u16 {
    const SIZE: usize = 2;

    ghost SIZE = { 2 };

    ghost read_at = { u16_at };

    ghost sized = { (lit≤ tt, lit≤ tt) };

    ghost local = { u16_local };

    fn read(file: &[u8], at: usize) -> u16 {
        u16_at(file, at)
    }
}

impl FromBytes for u32 {
    const SIZE: usize = 4;

    ghost SIZE = { 4 };

    ghost read_at = { u32_at };

    ghost sized = { (lit≤ tt, lit≤ tt) };

    ghost local = { u32_local };

    fn read(file: &[u8], at: usize) -> u32 {
        u32_at(file, at)
    }
}

impl FromBytes for Statement {
    const SIZE: usize = STATEMENT_SIZE;

    ghost SIZE = { 8 };

    ghost read_at = { read_statement };

    ghost sized = { (lit≤ tt, lit≤ tt) };

    ghost local = { statement_local };

    fn read(file: &[u8], at: usize) -> Statement {
        read_statement(file, at)
    }
}

impl FromBytes for Definition {
    const SIZE: usize = DEFINITION_SIZE;

    ghost SIZE = { 8 };

    ghost read_at = { read_definition };

    ghost sized = { (lit≤ tt, lit≤ tt) };

    ghost local = { definition_local };

    fn read(file: &[u8], at: usize) -> Definition {
        read_definition(file, at)
    }
}

impl FromBytes for FunctionDef {
    const SIZE: usize = FUNCTION_SIZE;

    ghost SIZE = { 36 };

    ghost read_at = { read_function };

    ghost sized = { (lit≤ tt, lit≤ tt) };

    ghost local = { function_local };

    fn read(file: &[u8], at: usize) -> FunctionDef {
        read_function(file, at)
    }
}

#[tactic(auto, unfolding(definition::specs::File::byte_at, definition::specs::File::u16_at))]
pub fn u16_at(file: &[u8], at: usize) -> u16
    requires { at + 2 ≤ length file.now }
    ensures { result ≡ u16_at file.now at }
{
    u16::from_le_bytes([file[at], file[at + 1]])
}

#[tactic(auto, unfolding(definition::specs::File::byte_at, definition::specs::File::u16_at, definition::specs::File::u32_at))]
pub fn u32_at(file: &[u8], at: usize) -> u32
    requires { at + 4 ≤ length file.now }
    ensures { result ≡ u32_at file.now at }
{
    u32::from_le_bytes([file[at], file[at + 1], file[at + 2], file[at + 3]])
}

pub fn read_statement(file: &[u8], at: usize) -> Statement
    requires { at + 8 ≤ length file.now }
    ensures { result ≡ read_statement file.now at }
{
    Statement {
        opcode: u16_at(file, at),
        arg1: u16_at(file, at + 2),
        arg2: u16_at(file, at + 4),
        arg3: u16_at(file, at + 6),
    }
}

pub fn read_definition(file: &[u8], at: usize) -> Definition
    requires { at + 8 ≤ length file.now }
    ensures { result ≡ read_definition file.now at }
{
    Definition {
        kind: u16_at(file, at),
        offset: u16_at(file, at + 2),
        name: u32_at(file, at + 4),
    }
}

// The sizes stand in the record as an array.
fn read_argsz(file: &[u8], at: usize) -> [u8; 8]
    requires { at + 8 ≤ length file.now }
    ensures { result ≡ records (byte_at file.now) 1 8 at }
{
    let mut argsz = [0; 8];
    argsz.copy_from_slice(&file[at..at + 8]);
    argsz
}

// Bytes 12 to 15 are the profile number.
pub fn read_function(file: &[u8], at: usize) -> FunctionDef
    requires { at + 36 ≤ length file.now }
    ensures { result ≡ read_function file.now at }
{
    let argsz = read_argsz(file, at + 28);
    FunctionDef {
        first: u32_at(file, at),
        start: u32_at(file, at + 4),
        locals: u32_at(file, at + 8),
        name: u32_at(file, at + 16),
        srcfile: u32_at(file, at + 20),
        argc: u32_at(file, at + 24),
        argsz,
    }
}
