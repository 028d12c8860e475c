// Records of the file, by the view's readers. A function that is exported can't return an enum, so a record stands beside two numbers: whether it is
// there, 1 or 0, and the refusal's number, 0 for none. Where a definition isn't there, which has no number in 01, both are 0. A record that isn't
// there is of zeros.
ghost use Rattle.std.specs.Prelude.{◌≡◌};
ghost use Rattle.definition.specs.Refusals.{checked};
ghost use Rattle.view.specs.Records.{statement_in, function_in, definition_in, field_in};
ghost use Rattle.host.specs.Found.{numbered, header_in, header_answered, header_reply, statement_reply, function_reply, definition_reply};

use definition::refusal::Refusal;
use definition::{
    Definition, FileRecord, FunctionDef, HEADER_LENGTH, LONGEST_FILE, MOST_ARGUMENTS, Statement,
};
use functions::header;

const NO_STATEMENT: Statement = Statement {
    opcode: 0,
    arg1: 0,
    arg2: 0,
    arg3: 0,
};

const NO_FUNCTION: FunctionDef = FunctionDef {
    first: 0,
    start: 0,
    locals: 0,
    name: 0,
    srcfile: 0,
    argc: 0,
    argsz: [0; MOST_ARGUMENTS],
};

const NO_DEFINITION: Definition = Definition {
    kind: 0,
    offset: 0,
    name: 0,
};

#[repr(C)]
#[derive(Clone, Copy)]
pub struct HeaderReply {
    pub found: u32,
    pub refusal: u32,
    pub recorded: FileRecord,
}

#[repr(C)]
#[derive(Clone, Copy)]
pub struct StatementReply {
    pub found: u32,
    pub refusal: u32,
    pub statement: Statement,
}

#[repr(C)]
#[derive(Clone, Copy)]
pub struct FunctionReply {
    pub found: u32,
    pub refusal: u32,
    pub function: FunctionDef,
}

#[repr(C)]
#[derive(Clone, Copy)]
pub struct DefinitionReply {
    pub found: u32,
    pub refusal: u32,
    pub definition: Definition,
}

// The two numbers, and the record that stands beside them: `none` where it isn't there.
fn numbered<T: Copy>(answer: Result<Option<T>, Refusal>, none: T) -> (u32, u32, T)
    ensures { result ≡ numbered none (checked answer) }
{
    match answer {
        Ok(Some(record)) => (1, 0, record),
        Ok(None) => (0, 0, none),
        Err(refusal) => (0, u32::from(refusal.number()), none),
    }
}

impl From<Result<FileRecord, Refusal>> for HeaderReply {
    ghost from_gives = { λ answer reply. reply ≡ header_answered (checked answer) };

    fn from(answer: Result<FileRecord, Refusal>) -> HeaderReply {
        let (found, refusal, recorded) = numbered(answer.map(Some), FileRecord::default());
        HeaderReply {
            found,
            refusal,
            recorded,
        }
    }
}

impl From<Result<(usize, Statement), Refusal>> for StatementReply {
    ghost from_gives = { λ answer reply. reply ≡ statement_reply (checked answer) };

    fn from(answer: Result<(usize, Statement), Refusal>) -> StatementReply {
        let read = answer.map(|(_, statement)| Some(statement));
        let (found, refusal, statement) = numbered(read, NO_STATEMENT);
        StatementReply {
            found,
            refusal,
            statement,
        }
    }
}

impl From<Result<FunctionDef, Refusal>> for FunctionReply {
    ghost from_gives = { λ answer reply. reply ≡ function_reply (checked answer) };

    fn from(answer: Result<FunctionDef, Refusal>) -> FunctionReply {
        let (found, refusal, function) = numbered(answer.map(Some), NO_FUNCTION);
        FunctionReply {
            found,
            refusal,
            function,
        }
    }
}

impl From<Result<Option<Definition>, Refusal>> for DefinitionReply {
    ghost from_gives = { λ answer reply. reply ≡ definition_reply (checked answer) };

    fn from(answer: Result<Option<Definition>, Refusal>) -> DefinitionReply {
        let (found, refusal, definition) = numbered(answer, NO_DEFINITION);
        DefinitionReply {
            found,
            refusal,
            definition,
        }
    }
}

// Refusal 1 is for a length that no file may have.
#[tactic(auto, unfolding(definition::specs::File::file_of))]
fn read_header(file: &[u8]) -> Result<FileRecord, Refusal>
    ensures { checked result ≡ header_in file.now }
{
    if !(HEADER_LENGTH..=LONGEST_FILE).contains(&file.len()) {
        return Err(Refusal::FileLength);
    }
    Ok(header::file_of(file))
}

// What the header says of the file, in the form in which a context records it.
#[unsafe(no_mangle)]
pub extern "C" fn host_read_header(file: &[u8]) -> HeaderReply
    ensures { result ≡ header_reply file.now }
{
    read_header(file).into()
}

#[unsafe(no_mangle)]
pub extern "C" fn host_read_statement(file: &[u8], recorded: FileRecord, pc: i64) -> StatementReply
    ensures { result ≡ statement_reply (statement_in file.now recorded pc) }
{
    view::read_statement(file, recorded, pc).into()
}

#[unsafe(no_mangle)]
pub extern "C" fn host_read_function(file: &[u8], recorded: FileRecord, id: i64) -> FunctionReply
    ensures { result ≡ function_reply (function_in file.now recorded id) }
{
    view::read_function(file, recorded, id).into()
}

#[unsafe(no_mangle)]
pub extern "C" fn host_read_definition(
    file: &[u8],
    recorded: FileRecord,
    index: i64,
) -> DefinitionReply
    ensures { result ≡ definition_reply (definition_in file.now recorded index) }
{
    view::read_definition(file, recorded, index).into()
}

#[unsafe(no_mangle)]
pub extern "C" fn host_read_field(file: &[u8], recorded: FileRecord, index: i64) -> DefinitionReply
    ensures { result ≡ definition_reply (field_in file.now recorded index) }
{
    view::read_field(file, recorded, index).into()
}
