// The first engine under names of C, in a static library of its own: what executes a statement is then part of its loop, as it is of the second engine's in
// the library `host`. A compiler does that for one caller.
// What is lent comes as plain slices, as in the C interface.
#![tactic(auto)]

ghost use Rattle.std.specs.Prelude.{◌≡◌};
ghost use Rattle.definition.specs.Calls.{steps, runs};
ghost use Rattle.definition.specs.Load.{program_of};
ghost use Rattle.progs.specs.Contexts.{config};
ghost use Rattle.call_list.specs.Encoding.{replied_of, after_call};

use call_list::Replied;
use progs::ExecutionContext;

#[tactic(auto, unfolding(definition::specs::Calls::after, call_list::specs::Encoding::reply))]
#[unsafe(no_mangle)]
pub extern "C" fn host_statement(
    context: ExecutionContext,
    file: &[u8],
    cells: &mut [u32],
    store: &mut [u32],
    entities: &mut [u32],
) -> Replied
    ensures { replied_of result cells.new store.new entities.new ≡ after_call (program_of file.now) steps (config context cells.old store.old entities.old) }
{
    call_list::reply_statement(stepping::step_once(context, file, cells, store, entities))
}

#[tactic(auto, unfolding(definition::specs::Calls::after, call_list::specs::Encoding::reply))]
#[unsafe(no_mangle)]
pub extern "C" fn host_run(
    context: ExecutionContext,
    file: &[u8],
    target: i64,
    limit: i64,
    cells: &mut [u32],
    store: &mut [u32],
    entities: &mut [u32],
) -> Replied
    ensures { replied_of result cells.new store.new entities.new ≡ after_call (program_of file.now) (runs target limit) (config context cells.old store.old entities.old) }
{
    call_list::reply_run(server::run(context, file, target, limit, cells, store, entities))
}
