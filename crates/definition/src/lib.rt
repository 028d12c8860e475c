// The plain data that the definition, the code and the answers share. Nothing is computed here: what the machine does is in specs/.
// A number of the file is kept as its unsigned bits; a signed one is negative where its top bit is set.

#![tactic(auto)]

pub mod refusal;

// ---- the numbers of document 01, of which the definition has the same, in specs/File.antt (`longest_file` and so on)

// "Version 6; check number 5927"
pub const VERSION: u32 = 6;

pub const CHECK_NUMBER: u32 = 5927;

// "Record sizes: 8, 8, 8, 36, 1, 4 bytes": of a statement, a definition of either kind, a function, a byte of the strings, a cell.
pub const STATEMENT_SIZE: usize = 8;

pub const DEFINITION_SIZE: usize = 8;

pub const FUNCTION_SIZE: usize = 36;

pub const CELL_SIZE: usize = 4;

// Document 02, R-12: "a lent buffer of 16-bit numbers, four to a statement"
pub const UNPACKED_SIZE: usize = 4;

// "1: length under 60 or over 1,048,576"
pub const HEADER_LENGTH: usize = 60;

pub const LONGEST_FILE: usize = 1_048_576;

// 7: the opcodes are 0 to 65.
pub const OPCODE_COUNT: u16 = 66;

// "8: type over 7, flag apart"
pub const GREATEST_TYPE: u16 = 7;

// "Bit 15 of the type is the save flag"
pub const SAVE_FLAG: u16 = 32_768;

// "10: under 36 or over 32,768"; document 02, R-7: "Files of 36 to 63 cells are refused 10 from now on"
pub const LEAST_CELLS: usize = 64;

// R-7: the least number of cells of a file that the padding program admits.
pub const LEAST_TO_PAD: usize = 36;

pub const MOST_CELLS: usize = 32_768;

// "11: entity cells under 105"
pub const LEAST_ENTITY_CELLS: usize = 105;

// Document 02, R-3: "More than 600 entities .. are refused 13"
pub const MOST_ENTITIES: usize = 600;

// The greatest signed number of 32 bits. R-3: "32 for a pointer to be made over 2,147,483,647"
pub const GREATEST_POINTER: usize = 2_147_483_647;

// "12: .. saved store under 2,048", "23: .. saved over 2,048"
pub const SAVED_STORE: usize = 2_048;

// "13: .. depth over 31", "22: depth is 31"
pub const GREATEST_DEPTH: usize = 31;

// "24: argument count outside 0 to 8"
pub const MOST_ARGUMENTS: usize = 8;

// "28: limit outside 1 to 99,999"
pub const GREATEST_LIMIT: usize = 99_999;

// Document 02, R-11: "Check number (0 to 65,535)"
pub const GREATEST_CHECK_NUMBER: usize = 65_535;

// Document 02, R-9: "Up to 64 pairs"
pub const MOST_PAIRS: usize = 64;

// ---- records

// A lump of the header: where its records start, and how many there are.
#[repr(C)]
#[derive(Clone, Copy, Default, Debug, PartialEq, Eq)]
pub struct Lump {
    pub offset: usize,
    pub count: usize,
}

// What a state records of the file that it was loaded from: the length, the header's six lumps, the cells per entity.
#[repr(C)]
#[derive(Clone, Copy, Default, Debug, PartialEq, Eq)]
pub struct FileRecord {
    pub length: usize,
    pub statements: Lump,
    pub globaldefs: Lump,
    pub fielddefs: Lump,
    pub functions: Lump,
    pub strings: Lump,
    pub globals: Lump,
    pub entityfields: usize,
}

// Document 02, R-11, what a venue sets at load: "Check number (0 to 65,535), greatest depth (1 to 31), greatest saved count (0 to 2,048) and greatest run
// limit (1 to 99,999)". A host's numbers are signed; the bits of a negative one are above every bound.
#[repr(C)]
#[derive(Clone, Copy, Default, Debug, PartialEq, Eq)]
pub struct Settings {
    pub check_number: usize,
    pub depth: usize,
    pub saved: usize,
    pub limit: usize,
}

// A statement record. Signed 16 bits each.
#[repr(C)]
#[derive(Clone, Copy, Debug, PartialEq, Eq)]
pub struct Statement {
    pub opcode: u16,
    pub arg1: u16,
    pub arg2: u16,
    pub arg3: u16,
}

// A global or field definition record: the type with its save flag, the cell, the name's offset.
#[repr(C)]
#[derive(Clone, Copy, Debug, PartialEq, Eq)]
pub struct Definition {
    pub kind: u16,
    pub offset: u16,
    pub name: u32,
}

// A function record without its profile number: first statement, first local cell, local count, name, source file, argument count, argument sizes.
#[repr(C)]
#[derive(Clone, Copy, Default, Debug, PartialEq, Eq)]
pub struct FunctionDef {
    pub first: u32,
    pub start: u32,
    pub locals: u32,
    pub name: u32,
    pub srcfile: u32,
    pub argc: u32,
    pub argsz: [u8; 8],
}

// A call that waits: the position to go back to, and the function to go back into.
#[repr(C)]
#[derive(Clone, Copy, Default, Debug, PartialEq, Eq)]
pub struct StackFrame {
    pub instr_id: i64,
    pub func_id: usize,
}

// ---- answers

// What is handed to the host: a builtin or an opcode, with its number.
#[derive(Clone, Copy, Debug, PartialEq, Eq)]
pub enum Handover {
    Builtin(u32),
    Opcode(u32),
}

// How a run ends. No Result: three of the four are no failures. A refusal is its number here, since the definition answers by this enum too, and gives numbers.
#[derive(Clone, Copy)]
pub enum RunAnswer {
    Ended,
    Spent,
    Refused(u8),
    HandedOver(Handover),
}

// What one statement answers: an enum and a number for the same reasons.
#[derive(Clone, Copy)]
pub enum StatementAnswer {
    Completed,
    Refused(u8),
    HandedOver(Handover),
}
