// Program files in document 02's one form (R-6), written into a lent output buffer.
#![tactic(auto)]

ghost use Rattle.std.specs.Prelude.{◌≡◌, true, ◌+◌, ◌*◌, ◌≤◌, ◌<◌, length, replicate};
ghost use Rattle.definition.specs.File.{contents_at, lump_fits, read_function};
ghost use Rattle.definition.specs.Written.{u16_bytes, u32_bytes, function_bytes, bytes_of, behind, header_numbers, written, padded, outcome_of};
ghost use Rattle.functions.specs.Laws.{AllFit};
ghost use Rattle.functions.specs.Parts.{part_of, functions_in};
ghost use Rattle.text.specs.Output.{Room};
ghost use Rattle.text.specs.Writing.{at_place, Wrote};
ghost use Rattle.writing_laws.specs.Lumps.{laid_out, more_cells, lumps_of};
ghost use Rattle.writer.specs.Header.{Small, Counted};
ghost use Rattle.writer.specs.Outcomes.{writing};

use definition::refusal::Refusal;
use definition::{
    CELL_SIZE, DEFINITION_SIZE, FUNCTION_SIZE, FileRecord, HEADER_LENGTH, LONGEST_FILE, Lump,
    STATEMENT_SIZE, VERSION,
};
use functions::parts;
use text::Writer;

// Numbers, lowest byte first.
#[tactic(auto, using(crate::proofs::Numbers::low_first_u16))]
pub fn write_u16(out: &mut Writer<'_>, x: u16)
    requires { Room (u16_bytes x) (at_place out.old) }
    ensures { Wrote (u16_bytes x) out.old out.new }
{
    out.write_bytes(&x.to_le_bytes());
}

#[tactic(auto, using(crate::proofs::Numbers::low_first_u32))]
pub fn write_u32(out: &mut Writer<'_>, n: u32)
    requires { Room (u32_bytes n) (at_place out.old) }
    ensures { Wrote (u32_bytes n) out.old out.new }
{
    out.write_bytes(&n.to_le_bytes());
}

// The header: version and check number, offset and count of each lump, cells per entity.
#[tactic(auto, using(text::specs::Writing::left_all))]
pub fn write_header(out: &mut Writer<'_>, check: u32, r: FileRecord)
    requires room { Room (bytes_of u32_bytes (header_numbers check r)) (at_place out.old) }
    requires small { Small r }
    ensures { Wrote (bytes_of u32_bytes (header_numbers check r)) out.old out.new }
{
    let numbers = [
        VERSION as usize,
        check as usize,
        r.statements.offset,
        r.statements.count,
        r.globaldefs.offset,
        r.globaldefs.count,
        r.fielddefs.offset,
        r.fielddefs.count,
        r.functions.offset,
        r.functions.count,
        r.strings.offset,
        r.strings.count,
        r.globals.offset,
        r.globals.count,
        r.entityfields,
    ];
    for number in numbers {
        write_u32(out, number as u32);
    }
}

// A function's record with 0 for its profile number, which is bytes 12 to 15. A copy, which is stored in a few instructions: from the file it would go byte by byte,
// since LLVM doesn't know that the output buffer lies apart from it.
fn without_profile(function: &[u8]) -> [u8; FUNCTION_SIZE]
    requires { length function.now ≡ 36 }
    ensures { result ≡ function_bytes (read_function function.now 0) }
{
    let mut record = [0u8; FUNCTION_SIZE];
    record.copy_from_slice(function);
    record[12..16].copy_from_slice(&[0; 4]);
    record
}

fn write_function(out: &mut Writer<'_>, function: &[u8])
    requires length { length function.now ≡ 36 }
    requires room { Room (function_bytes (read_function function.now 0)) (at_place out.old) }
    ensures { Wrote (function_bytes (read_function function.now 0)) out.old out.new }
{
    out.write_bytes(&without_profile(function));
}

fn write_functions(out: &mut Writer<'_>, functions: &[u8])
    requires { Room (bytes_of function_bytes (functions_in functions.now)) (at_place out.old) }
    ensures { Wrote (bytes_of function_bytes (functions_in functions.now)) out.old out.new }
{
    for function in functions.chunks_exact(FUNCTION_SIZE) {
        write_function(out, function);
    }
}

// A lump's bytes as they stand.
fn write_lump(out: &mut Writer<'_>, file: &[u8], size: usize, lump: Lump)
    requires lump_value { (lump_fits size (length file.now) lump ≡ true) × (size ≤ 36) }
    requires room { Room (part_of size lump file.now) (at_place out.old) }
    ensures { Wrote (part_of size lump file.now) out.old out.new }
{
    out.write_bytes(parts::part(file, size, lump));
}

// The six lumps in header order: bytes as they stand, but for the functions.
#[tactic(auto, unfolding(writing_laws::specs::Lumps::lumps_of))]
fn write_lumps(out: &mut Writer<'_>, file: &[u8], r: FileRecord)
    requires all_fit { AllFit (length file.now) r }
    requires room { Room (lumps_of r file.now) (at_place out.old) }
    ensures { Wrote (lumps_of r file.now) out.old out.new }
{
    write_lump(out, file, STATEMENT_SIZE, r.statements);
    write_lump(out, file, DEFINITION_SIZE, r.globaldefs);
    write_lump(out, file, DEFINITION_SIZE, r.fielddefs);
    write_functions(out, parts::part(file, FUNCTION_SIZE, r.functions));
    write_lump(out, file, 1, r.strings);
    write_lump(out, file, CELL_SIZE, r.globals);
}

// As many records as a lump has, where another lump, of records of a size, ends.
fn behind(size: usize, lump: Lump, next: Lump) -> Lump
    requires { lump.offset + size * lump.count < 18446744073709551616 }
    ensures { result ≡ behind size lump next.count }
{
    Lump {
        offset: lump.offset + size * lump.count,
        ..next
    }
}

// The lumps without gaps, behind the header.
#[tactic(auto, unfolding(definition::specs::Written::layout))]
pub fn laid_out(r: FileRecord) -> FileRecord
    requires { Counted r }
    ensures { result ≡ laid_out r }
{
    let header = Lump {
        offset: 0,
        count: HEADER_LENGTH,
    };
    let statements = behind(1, header, r.statements);
    let globaldefs = behind(STATEMENT_SIZE, statements, r.globaldefs);
    let fielddefs = behind(DEFINITION_SIZE, globaldefs, r.fielddefs);
    let functions = behind(DEFINITION_SIZE, fielddefs, r.functions);
    let strings = behind(FUNCTION_SIZE, functions, r.strings);
    let globals = behind(1, strings, r.globals);
    FileRecord {
        length: globals.offset + CELL_SIZE * globals.count,
        statements,
        globaldefs,
        fielddefs,
        functions,
        strings,
        globals,
        ..r
    }
}

// What is counted of a file with so many cells more.
fn more_cells(r: FileRecord, zeros: usize) -> FileRecord
    requires { r.globals.count + zeros < 2147483648 }
    ensures { result ≡ more_cells zeros r }
{
    FileRecord {
        globals: Lump {
            count: r.globals.count + zeros,
            ..r.globals
        },
        ..r
    }
}

fn write_zeros(out: &mut Writer<'_>, n: usize)
    requires { Room (replicate n 0) (at_place out.old) }
    ensures { Wrote (replicate n 0) out.old out.new }
{
    let end = out.at + n;
    out.buf[out.at..end].fill(0);
    out.at = end;
}

// The program of a file, with its lumps where a record of the file has them and so many zero cells more (R-7): at the front of the output buffer, or 34 and
// nothing.
#[tactic(auto, using(crate::proofs::Program::no_room, crate::proofs::Program::size_written, crate::proofs::Program::small))]
pub fn write_program(
    out: &mut [u8],
    check: u32,
    file: &[u8],
    r: FileRecord,
    zeros: usize,
) -> Result<usize, Refusal>
    requires all_fit { AllFit (length file.now) r }
    requires entityfields_bound { (r.entityfields < 4294967296) × (r.globals.count + zeros < 2147483648) }
    ensures { outcome_of result out.new ≡ writing (written check (padded zeros (contents_at r file.now))) out.old }
{
    let laid = laid_out(more_cells(r, zeros));
    if out.len().min(LONGEST_FILE) < laid.length {
        return Err(Refusal::OutputTooShort);
    }
    let mut output = Writer { buf: out, at: 0 };
    write_header(&mut output, check, laid);
    write_lumps(&mut output, file, r);
    write_zeros(&mut output, CELL_SIZE * zeros);
    Ok(output.at)
}
