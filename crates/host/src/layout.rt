// Where the fields of the structs lie. A host declares the structs again, and sees by a number of its own in each field whether its places are these.
ghost use Rattle.std.specs.Prelude.{◌≡◌, ◌+◌, ◌≤◌};
ghost use Rattle.host.specs.Layout.{numbered_lump, numbered_file, numbered_settings, numbered_context, numbered_statement, numbered_function, numbered_structs};

use crate::display::WriteReply;
use crate::records::{DefinitionReply, FunctionReply, HeaderReply, StatementReply};
use call_list::Replied;
use definition::{Definition, FileRecord, FunctionDef, Lump, Settings, StackFrame, Statement};
use progs::ExecutionContext;

// All that the exported functions answer.
#[repr(C)]
#[derive(Clone, Copy)]
pub struct Structs {
    pub reply: Replied,
    pub header: HeaderReply,
    pub statement: StatementReply,
    pub function: FunctionReply,
    pub definition: DefinitionReply,
    pub written: WriteReply,
}

fn numbered_lump(n: usize) -> Lump
    requires { n ≤ 102 }
    ensures { result ≡ numbered_lump n (n + 1) }
{
    Lump {
        offset: n,
        count: n + 1,
    }
}

fn numbered_file(n: usize) -> FileRecord
    requires { n ≤ 91 }
    ensures { result ≡ numbered_file n }
{
    FileRecord {
        length: n,
        statements: numbered_lump(n + 1),
        globaldefs: numbered_lump(n + 3),
        fielddefs: numbered_lump(n + 5),
        functions: numbered_lump(n + 7),
        strings: numbered_lump(n + 9),
        globals: numbered_lump(n + 11),
        entityfields: n + 13,
    }
}

fn numbered_settings() -> Settings
    ensures { result ≡ numbered_settings }
{
    Settings {
        check_number: 15,
        depth: 16,
        saved: 17,
        limit: 18,
    }
}

fn numbered_context() -> ExecutionContext
    ensures { result ≡ numbered_context }
{
    ExecutionContext {
        file: numbered_file(1),
        settings: numbered_settings(),
        pc: 19,
        current_function: 20,
        depth: 21,
        saved: 22,
        entity_count: 23,
        frames: std::array::from_fn(|i| StackFrame {
            instr_id: (24 + 2 * i) as i64,
            func_id: 25 + 2 * i,
        }),
    }
}

fn numbered_statement() -> StatementReply
    ensures { result ≡ numbered_statement }
{
    StatementReply {
        found: 105,
        refusal: 106,
        statement: Statement {
            opcode: 107,
            arg1: 108,
            arg2: 109,
            arg3: 110,
        },
    }
}

fn numbered_function() -> FunctionReply
    ensures { result ≡ numbered_function }
{
    FunctionReply {
        found: 111,
        refusal: 112,
        function: FunctionDef {
            first: 113,
            start: 114,
            locals: 115,
            name: 116,
            srcfile: 117,
            argc: 118,
            argsz: [119, 120, 121, 122, 123, 124, 125, 126],
        },
    }
}

#[unsafe(no_mangle)]
pub extern "C" fn host_layout() -> Structs
    ensures { result ≡ numbered_structs }
{
    Structs {
        reply: Replied {
            context: numbered_context(),
            word: 86,
            detail: 87,
            count: 88,
        },
        header: HeaderReply {
            found: 89,
            refusal: 90,
            recorded: numbered_file(91),
        },
        statement: numbered_statement(),
        function: numbered_function(),
        definition: DefinitionReply {
            found: 127,
            refusal: 128,
            definition: Definition {
                kind: 129,
                offset: 130,
                name: 131,
            },
        },
        written: WriteReply {
            length: 132,
            refusal: 133,
        },
    }
}
