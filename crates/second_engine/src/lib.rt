// The second engine (document 02, R-12): a run whose statements are read from the buffer that they were unpacked into. Its loop is made for speed.
#![tactic(auto)]

ghost use Rattle.std.specs.Prelude.{◌≡◌, ◌≢◌, List, ℕ, ◌*◌, ◌≤◌, length};
ghost use Rattle.definition.specs.File.{contents_at, unpacked_statements, with_statements};
ghost use Rattle.definition.specs.Cells.{typing_of};
ghost use Rattle.definition.specs.Statements.{does_at};
ghost use Rattle.definition.specs.Machine.{with_unpacked, step, run_for};
ghost use Rattle.definition.specs.Load.{program_of};
ghost use Rattle.definition.specs.Answers.{statement_outcome};
ghost use Rattle.definition.specs.Operations.{run};
ghost use Rattle.execution.specs.Execution.{executed, execution, Usable, UsableFields};
ghost use Rattle.execution.specs.Lent.{entities_at};
ghost use Rattle.progs.specs.Contexts.{config, Within, Kept};
ghost use Rattle.server.specs.Stepping.{stepping_of, ran_of};
ghost use Rattle.second_engine.specs.Quickly.{AllFloats};

use definition::refusal::Refusal;
use definition::{FileRecord, Handover, RunAnswer, UNPACKED_SIZE};
use execution::Executed;
use functions::{fetch, ops};
use progs::ExecutionContext;
use server::{Bounds, Ran};

mod quick;

// How many cells pass as floats with nothing looked up: where there are no definitions, all.
#[tactic(auto, using(crate::proofs::QuickLaws::none_pass, crate::proofs::QuickLaws::all_pass))]
fn untyped_cells(recorded: FileRecord) -> usize
    ensures { (result ≤ recorded.globals.count) × ((file : List ℕ) → AllFloats (typing_of (contents_at recorded file)) result) }
{
    if recorded.globaldefs.count == 0 {
        recorded.globals.count
    } else {
        0
    }
}

// What the statement at a position does; one that writes cells or entity cells has done so. By a `match` on two opcodes: a table would hand functions out.
#[tactic(auto, using(crate::proofs::StepLaws::statements))]
fn does(
    file: &[u8],
    recorded: FileRecord,
    number: usize,
    buffer: &[u16],
    cells: &mut [u32],
    entities: &mut [u32],
    pc: i64,
) -> Result<Executed, Refusal>
    requires usable { Usable (length file.now) recorded (length cells.old) }
    requires usable_fields { UsableFields recorded number (length entities.old) }
    requires count_in_bounds { 4 * recorded.statements.count ≤ length buffer.now }
    ensures { executed result cells.new entities.new ≡ execution (does_at (with_statements (contents_at recorded file.now) (unpacked_statements buffer.now recorded.statements.count)) pc (entities_at number entities.old) cells.old) cells.old entities.old }
{
    let (k, s) = unpacked::fetch(buffer, recorded.statements.count, pc)?;
    match s.opcode {
        // These two check nothing, and need no call.
        ops::GOTO => Ok(Executed::Next(fetch::jump(k, s.arg1))),
        ops::RETURN => Ok(Executed::Returns(fetch::cell_of(s.arg1))),
        _ => execution::execute(file, recorded, number, cells, entities, k, s),
    }
}

// One statement: `recorded` and `number` are the context's. What is lent comes as plain slices, as in the C interface.
#[inline(always)]
#[tactic(auto, using(crate::proofs::StepLaws::steps))]
fn step(
    context: &mut ExecutionContext,
    file: &[u8],
    recorded: FileRecord,
    number: usize,
    buffer: &[u16],
    cells: &mut [u32],
    store: &mut [u32],
    entities: &mut [u32],
) -> Result<Option<Handover>, Refusal>
    requires within { Within file.now context.old (length cells.old) (length store.old) (length entities.old) }
    requires own { (recorded ≡ context.old.file) × (number ≡ context.old.entity_count) }
    requires count_in_bounds { 4 * recorded.statements.count ≤ length buffer.now }
    ensures outcome { stepping_of result context.new cells.new store.new entities.new ≡ statement_outcome (config context.old cells.old store.old entities.old) (step (with_unpacked (program_of file.now) buffer.now) (config context.old cells.old store.old entities.old)) }
    ensures kept { Kept context.old context.new }
{
    let done = does(file, recorded, number, buffer, cells, entities, context.pc)?;
    server::perform(context, file, done, cells, store)
}

// At most `limit` statements, until the depth is the target.
#[tactic(auto, using(crate::proofs::RunLaws::runs))]
fn run_for(
    context: ExecutionContext,
    file: &[u8],
    buffer: &[u16],
    bounds: Bounds,
    cells: &mut [u32],
    store: &mut [u32],
    entities: &mut [u32],
) -> Ran
    requires within { Within file.now context (length cells.old) (length store.old) (length entities.old) }
    requires apart { context.depth ≢ bounds.target }
    requires count_in_bounds { 4 * context.file.statements.count ≤ length buffer.now }
    ensures { ran_of result cells.new store.new entities.new ≡ run_for (with_unpacked (program_of file.now) buffer.now) bounds.limit bounds.target (config context cells.old store.old entities.old) }
{
    let recorded = context.file;
    let statements = recorded.statements.count;
    let number = context.entity_count;
    let untyped = untyped_cells(recorded);
    let mut now = context;
    let mut count: u32 = 0;
    // No `for`: a turn does any number of common statements, and then at most one other.
    while count < bounds.limit {
        let left = bounds.limit - count;
        let went = quick::do_common(buffer, statements, untyped, cells, now.pc, left);
        now.pc = went.pc;
        count += went.count;
        if bounds.limit <= count {
            break;
        }
        match step(
            &mut now, file, recorded, number, buffer, cells, store, entities,
        ) {
            Ok(None) => {
                if now.depth == bounds.target {
                    return Ran::new(now, RunAnswer::Ended, count + 1);
                }
            }
            Ok(Some(h)) => return Ran::new(now, RunAnswer::HandedOver(h), count),
            Err(refusal) => return Ran::refused(now, refusal, count),
        }
        count += 1;
    }
    Ran::new(now, RunAnswer::Spent, count)
}

// A run of the second engine, from the buffer.
#[tactic(auto, using(crate::proofs::RunLaws::whole_runs))]
pub fn run_unpacked(
    context: ExecutionContext,
    file: &[u8],
    buffer: &[u16],
    target: i64,
    limit: i64,
    cells: &mut [u32],
    store: &mut [u32],
    entities: &mut [u32],
) -> Ran
    ensures { ran_of result cells.new store.new entities.new ≡ run (with_unpacked (program_of file.now) buffer.now) target limit (config context cells.old store.old entities.old) }
{
    if !context.check_state(file, cells, store, entities) {
        return Ran::refused(context, Refusal::State, 0);
    }
    if buffer.len() < UNPACKED_SIZE * context.file.statements.count {
        return Ran::refused(context, Refusal::UnpackBufferTooShort, 0);
    }
    match Bounds::check(&context, target, limit) {
        Ok(bounds) => run_for(context, file, buffer, bounds, cells, store, entities),
        Err(refusal) => Ran::refused(context, refusal, 0),
    }
}
