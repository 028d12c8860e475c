// The host's outermost step: one statement, on a context that stays where the host has it.
// What is lent comes as plain slices, as in the C interface.
#![tactic(auto)]

ghost use Rattle.std.specs.Prelude.{◌≡◌};
ghost use Rattle.definition.specs.Answers.{statement_outcome};
ghost use Rattle.definition.specs.Load.{program_of};
ghost use Rattle.definition.specs.Operations.{statement};
ghost use Rattle.progs.specs.Contexts.{config};
ghost use Rattle.server.specs.Stepping.{stepped_of};
ghost use Rattle.stepping.specs.Steps.{stepped};

use definition::StatementAnswer;
use progs::ExecutionContext;
use server::Stepped;

pub fn step(
    context: &mut ExecutionContext,
    file: &[u8],
    cells: &mut [u32],
    store: &mut [u32],
    entities: &mut [u32],
) -> StatementAnswer
    ensures { stepped_of (stepped context.new result) cells.new store.new entities.new ≡ statement_outcome (config context.old cells.old store.old entities.old) (statement (program_of file.now) (config context.old cells.old store.old entities.old)) }
{
    let stepped = server::statement(*context, file, cells, store, entities);
    *context = stepped.context;
    stepped.answer
}

// The step on a context by value.
pub fn step_once(
    mut context: ExecutionContext,
    file: &[u8],
    cells: &mut [u32],
    store: &mut [u32],
    entities: &mut [u32],
) -> Stepped
    ensures { stepped_of result cells.new store.new entities.new ≡ statement_outcome (config context cells.old store.old entities.old) (statement (program_of file.now) (config context cells.old store.old entities.old)) }
{
    let answer = step(&mut context, file, cells, store, entities);
    Stepped { context, answer }
}
