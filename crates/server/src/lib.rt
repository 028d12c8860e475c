// Statements and runs (server/mod.rs, LevelState::execute_program).
#![tactic(auto)]

ghost use Rattle.std.specs.Prelude.{◌≡◌, List, ℕ, ◌*◌, ◌≤◌, length};
ghost use Rattle.definition.specs.Answers.{statement_outcome};
ghost use Rattle.definition.specs.Checks.{guard};
ghost use Rattle.definition.specs.Load.{program_of};
ghost use Rattle.definition.specs.Machine.{Program, step, run_for};
ghost use Rattle.definition.specs.Operations.{statement, run};
ghost use Rattle.definition.specs.Refusals.{number, checked};
ghost use Rattle.definition.specs.declared.RunAnswer.TheVariants as run;
ghost use Rattle.progs.specs.Contexts.{config, Within, Lent, Kept};
ghost use Rattle.server.specs.Stepping.{stepping_of, statement_answer, step_by, CallAt, stepped_of, ran_as, ran_of, bounds_conditions, bounds_of};

use definition::refusal::Refusal;
use definition::{FileRecord, Handover, RunAnswer, StatementAnswer};
use execution::Executed;
use functions::fetch;
use progs::ExecutionContext;

// The context after a statement, and what it answers: both go on to the C interface, whose functions take a context and give one.
#[derive(Clone, Copy)]
pub struct Stepped {
    pub context: ExecutionContext,
    pub answer: StatementAnswer,
}

// The context after a run, what it answers, and how many statements it completed.
#[derive(Clone, Copy)]
pub struct Ran {
    pub context: ExecutionContext,
    pub answer: RunAnswer,
    pub count: u32,
}

impl Ran {
    pub fn new(context: ExecutionContext, answer: RunAnswer, count: u32) -> Ran
        ensures { result ≡ ran_as context answer count }
    {
        Ran {
            context,
            answer,
            count,
        }
    }

    pub fn refused(context: ExecutionContext, refusal: Refusal, count: u32) -> Ran
        ensures { result ≡ ran_as context (run.Refused (number refusal)) count }
    {
        Ran::new(context, RunAnswer::Refused(refusal.number()), count)
    }
}

// How many statements a run has at most, and the depth that it goes on to.
#[derive(Clone, Copy)]
pub struct Bounds {
    pub limit: u32,
    pub target: usize,
}

impl Bounds {
    // Those that a host asks for: 28 and 29.
    #[tactic(auto, using(crate::proofs::HostLaws::bounds))]
    pub fn check(context: &ExecutionContext, target: i64, limit: i64) -> Result<Bounds, Refusal>
        requires { context.now.settings.limit ≤ 99999 }
        ensures { checked result ≡ guard (bounds_conditions target limit context.now.settings.limit context.now.depth) (bounds_of target limit) }
    {
        let most = fetch::place_of(0, limit);
        if most == 0 || context.settings.limit < most {
            return Err(Refusal::Limit);
        }
        let down = fetch::place_of(context.depth, target);
        if context.depth <= down {
            return Err(Refusal::TargetDepth);
        }
        Ok(Bounds {
            limit: most as u32,
            target: down,
        })
    }
}

// What is left of a statement that isn't refused: the position moves on, or a function is entered or left. What is handed over is given back. The contract
// holds for every program with these functions, and beside every list of entity cells.
#[inline(always)]
pub fn perform(
    context: &mut ExecutionContext,
    file: &[u8],
    done: Executed,
    cells: &mut [u32],
    store: &mut [u32],
) -> Result<Option<Handover>, Refusal>
    requires lent { Lent file.now context.old cells.old store.old }
    requires call_at { CallAt done context.old.pc }
    ensures outcome { (P : Program) (entities : List ℕ) → P.functions ≡ (program_of file.now).functions → stepping_of result context.new cells.new store.new entities ≡ statement_outcome (config context.old cells.old store.old entities) (step_by P done (config context.old cells.old store.old entities)) }
    ensures kept { Kept context.old context.new }
{
    match done {
        Executed::Next(p) => {
            context.pc = p;
            Ok(None)
        }
        Executed::Calls(f) => {
            let back = fetch::after(fetch::place_of(0, context.pc));
            context.enter_function(file, f, back, cells, store)?;
            Ok(None)
        }
        Executed::Returns(a) => {
            context.op_return(file, a, cells, store)?;
            Ok(None)
        }
        Executed::HandedOver(h) => Ok(Some(h)),
    }
}

// One statement: `recorded` and `number` are the context's. What is lent comes as plain slices, as in the C interface.
#[inline(always)]
#[tactic(auto, using(crate::proofs::StepLaws::steps))]
fn step(
    context: &mut ExecutionContext,
    file: &[u8],
    recorded: FileRecord,
    number: usize,
    cells: &mut [u32],
    store: &mut [u32],
    entities: &mut [u32],
) -> Result<Option<Handover>, Refusal>
    requires within { Within file.now context.old (length cells.old) (length store.old) (length entities.old) }
    requires own { (recorded ≡ context.old.file) × (number ≡ context.old.entity_count) }
    ensures outcome { stepping_of result context.new cells.new store.new entities.new ≡ statement_outcome (config context.old cells.old store.old entities.old) (step (program_of file.now) (config context.old cells.old store.old entities.old)) }
    ensures kept { Kept context.old context.new }
{
    let done = execution::does(file, recorded, number, cells, entities, context.pc)?;
    perform(context, file, done, cells, store)
}

// At most `limit` statements, until the depth is the target.
#[tactic(auto, using(crate::proofs::RunLaws::runs))]
fn run_for(
    context: ExecutionContext,
    file: &[u8],
    bounds: Bounds,
    cells: &mut [u32],
    store: &mut [u32],
    entities: &mut [u32],
) -> Ran
    requires { Within file.now context (length cells.old) (length store.old) (length entities.old) }
    ensures { ran_of result cells.new store.new entities.new ≡ run_for (program_of file.now) bounds.limit bounds.target (config context cells.old store.old entities.old) }
{
    let recorded = context.file;
    let number = context.entity_count;
    let mut now = context;
    for count in 0..bounds.limit {
        match step(&mut now, file, recorded, number, cells, store, entities) {
            Ok(None) => {
                if now.depth == bounds.target {
                    return Ran::new(now, RunAnswer::Ended, count + 1);
                }
            }
            Ok(Some(h)) => return Ran::new(now, RunAnswer::HandedOver(h), count),
            Err(refusal) => return Ran::refused(now, refusal, count),
        }
    }
    Ran::new(now, RunAnswer::Spent, bounds.limit)
}

// What a statement answers, by a run of it alone.
fn answer_of(answer: RunAnswer) -> StatementAnswer
    ensures { result ≡ statement_answer answer }
{
    match answer {
        RunAnswer::Ended | RunAnswer::Spent => StatementAnswer::Completed,
        RunAnswer::Refused(n) => StatementAnswer::Refused(n),
        RunAnswer::HandedOver(h) => StatementAnswer::HandedOver(h),
    }
}

// The statement at the position.
#[tactic(auto, using(crate::proofs::HostLaws::statement_13, progs::proofs::StateLaws::passed))]
pub fn statement(
    context: ExecutionContext,
    file: &[u8],
    cells: &mut [u32],
    store: &mut [u32],
    entities: &mut [u32],
) -> Stepped
    ensures { stepped_of result cells.new store.new entities.new ≡ statement_outcome (config context cells.old store.old entities.old) (statement (program_of file.now) (config context cells.old store.old entities.old)) }
{
    if !context.check_state(file, cells, store, entities) {
        return Stepped {
            context,
            answer: StatementAnswer::Refused(Refusal::State.number()),
        };
    }
    // One statement, whatever the target: a second caller of `step` would make it a call in the run's loop.
    let one = Bounds {
        limit: 1,
        target: 0,
    };
    let ran = run_for(context, file, one, cells, store, entities);
    Stepped {
        context: ran.context,
        answer: answer_of(ran.answer),
    }
}

#[tactic(auto, using(crate::proofs::HostLaws::run_13, progs::proofs::StateLaws::passed))]
pub fn run(
    context: ExecutionContext,
    file: &[u8],
    target: i64,
    limit: i64,
    cells: &mut [u32],
    store: &mut [u32],
    entities: &mut [u32],
) -> Ran
    ensures { ran_of result cells.new store.new entities.new ≡ run (program_of file.now) target limit (config context cells.old store.old entities.old) }
{
    if !context.check_state(file, cells, store, entities) {
        return Ran::refused(context, Refusal::State, 0);
    }
    match Bounds::check(&context, target, limit) {
        Ok(bounds) => run_for(context, file, bounds, cells, store, entities),
        Err(refusal) => Ran::refused(context, refusal, 0),
    }
}
