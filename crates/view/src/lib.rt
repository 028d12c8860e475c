// The functions of a file (functions.rs, Functions) as a view that holds the lent bytes. Each of its readers stands a second time with plain parameters,
// for callers that hold no view: these make one and read through it.
// The bytes and what a state records of them come apart, as in the C interface.
#![tactic(auto)]

ghost use Rattle.std.specs.Prelude.{◌≡◌, ◌≤◌, true, false, length, MatchResult};
ghost use Rattle.definition.specs.File.{lump_fits};
ghost use Rattle.definition.specs.Refusals.{checked};
ghost use Rattle.functions.specs.Parts.{part_of};
ghost use Rattle.view.specs.Records.{statement_in, function_in, definition_in, field_in};

use definition::refusal::Refusal;
use definition::{
    DEFINITION_SIZE, Definition, FUNCTION_SIZE, FileRecord, FunctionDef, Lump, STATEMENT_SIZE,
    Statement,
};
use functions::{fetch, header, parts, reads};

// The file's bytes, and its lumps as a context records them.
#[derive(Clone, Copy)]
pub struct Functions<'a> {
    pub file: &'a [u8],
    pub recorded: FileRecord,
}

// The records of a lump, which the state may record otherwise than these bytes have it.
fn lent(file: &[u8], size: usize, lump: Lump) -> Result<&[u8], Refusal>
    requires { size ≤ 36 }
    ensures { MatchResult result (λ part. (lump_fits size (length file.now) lump ≡ true) × (part.now ≡ part_of size lump file.now)) (λ e. (lump_fits size (length file.now) lump ≡ false) × (e ≡ Refusal.Lump)) }
{
    if header::lump_fits(size, file.len(), lump) {
        Ok(parts::part(file, size, lump))
    } else {
        Err(Refusal::Lump)
    }
}

impl<'a> Functions<'a> {
    // The statement at a position, and its index.
    pub fn statement(self, pc: i64) -> Result<(usize, Statement), Refusal>
        ensures { checked result ≡ statement_in self.entry.file.now self.entry.recorded pc }
    {
        let lump = self.recorded.statements;
        fetch::fetch(lent(self.file, STATEMENT_SIZE, lump)?, pc)
    }

    pub fn function(self, id: i64) -> Result<FunctionDef, Refusal>
        ensures { checked result ≡ function_in self.entry.file.now self.entry.recorded id }
    {
        let lump = self.recorded.functions;
        let functions = lent(self.file, FUNCTION_SIZE, lump)?;
        let f = fetch::place_of(lump.count, id);
        if f < lump.count {
            Ok(functions::get_def(functions, f))
        } else {
            Err(Refusal::NoFunction)
        }
    }

    // A global definition, by its index.
    pub fn definition(self, index: i64) -> Result<Option<Definition>, Refusal>
        ensures { checked result ≡ definition_in self.entry.file.now self.entry.recorded index }
    {
        let lump = self.recorded.globaldefs;
        let defs = lent(self.file, DEFINITION_SIZE, lump)?;
        let i = fetch::place_of(lump.count, index);
        if i < lump.count {
            Ok(Some(reads::read_definition(defs, DEFINITION_SIZE * i)))
        } else {
            Ok(None)
        }
    }
}

pub fn read_statement(
    file: &[u8],
    recorded: FileRecord,
    pc: i64,
) -> Result<(usize, Statement), Refusal>
    ensures { checked result ≡ statement_in file.now recorded pc }
{
    let view = Functions { file, recorded };
    view.statement(pc)
}

pub fn read_function(file: &[u8], recorded: FileRecord, id: i64) -> Result<FunctionDef, Refusal>
    ensures { checked result ≡ function_in file.now recorded id }
{
    let view = Functions { file, recorded };
    view.function(id)
}

pub fn read_definition(
    file: &[u8],
    recorded: FileRecord,
    index: i64,
) -> Result<Option<Definition>, Refusal>
    ensures { checked result ≡ definition_in file.now recorded index }
{
    let view = Functions { file, recorded };
    view.definition(index)
}

// A field definition, by its index: a global one of a record that has the field definitions in the place of the global ones.
pub fn read_field(
    file: &[u8],
    recorded: FileRecord,
    index: i64,
) -> Result<Option<Definition>, Refusal>
    ensures { checked result ≡ field_in file.now recorded index }
{
    let defs = recorded.fielddefs;
    let mut fields = recorded;
    fields.globaldefs = defs;
    read_definition(file, fields, index)
}
