// Unpacked statements (document 02, R-12): "unpacked once into a lent buffer of 16-bit numbers, four to a statement in the file's order".
#![tactic(auto)]

ghost use Rattle.std.specs.Prelude.{◌≡◌, ◌+◌, ◌*◌, ◌≤◌, length};
ghost use Rattle.definition.specs.File.{read_unpacked, unpacked_statements};
ghost use Rattle.definition.specs.Refusals.{checked};
ghost use Rattle.definition.specs.Unpacked.{unpack};
ghost use Rattle.functions.specs.Answers.{fetched};
ghost use Rattle.progs.specs.Contexts.{config};
ghost use Rattle.unpacked.specs.Numbers.{unpacked_of, unpack_outcome};

use definition::refusal::Refusal;
use definition::{STATEMENT_SIZE, Statement, UNPACKED_SIZE};
use functions::{fetch, parts};
use progs::ExecutionContext;

// The statement whose numbers stand from a place on.
fn read_statement(buffer: &[u16], at: usize) -> Statement
    requires { at + 4 ≤ length buffer.now }
    ensures { result ≡ read_unpacked buffer.now at }
{
    Statement {
        opcode: buffer[at],
        arg1: buffer[at + 1],
        arg2: buffer[at + 2],
        arg3: buffer[at + 3],
    }
}

// The statement at a position, of the first `count` of a buffer: 14 is by that count, and not by the length of the buffer, which is the host's and may be longer.
pub fn fetch(buffer: &[u16], count: usize, pc: i64) -> Result<(usize, Statement), Refusal>
    requires { 4 * count ≤ length buffer.now }
    ensures { checked result ≡ fetched (unpacked_statements buffer.now count) pc }
{
    fetch::fetch_by(count, pc, |k| read_statement(buffer, UNPACKED_SIZE * k))
}

// Unpacks the file's statements. The lent cells, store and entity cells are looked at by check 13 alone. They
// come as plain slices, as in the C interface.
#[tactic(auto, using(progs::proofs::StateLaws::passed, functions::specs::Laws::lump_fitting, crate::proofs::Unpacking::written, crate::proofs::Unpacking::refused_13, crate::proofs::Unpacking::refused_37, crate::proofs::Unpacking::unpacked))]
pub fn unpack(
    context: &ExecutionContext,
    file: &[u8],
    buffer: &mut [u16],
    cells: &[u32],
    store: &[u32],
    entities: &[u32],
) -> Result<(), Refusal>
    ensures { unpacked_of result buffer.new ≡ unpack_outcome buffer.old (unpack file.now buffer.old (config context.now cells.now store.now entities.now)) }
{
    if !context.check_state(file, cells, store, entities) {
        return Err(Refusal::State);
    }
    let statements = context.file.statements;
    if buffer.len() < UNPACKED_SIZE * statements.count {
        return Err(Refusal::UnpackBufferTooShort);
    }
    parts::fill(parts::part(file, STATEMENT_SIZE, statements), buffer);
    Ok(())
}
