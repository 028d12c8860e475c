// The static library: each operation under a name of C, and the readers of records. A function that is exported can't return an enum, so an answer is
// three numbers, those of a list of calls, beside the context after the operation. No function asks anything of its caller but that the buffers are
// what they are said to be. Their parameters are those of the C interface, and each calls one operation and makes one reply, so that a function for two of them would be no plainer.
#![tactic(auto, unfolding(definition::specs::Calls::after, call_list::specs::Encoding::reply))]

ghost use Rattle.std.specs.Prelude.{◌≡◌};
ghost use Rattle.definition.specs.Load.{program_of};
ghost use Rattle.definition.specs.Written.{write_file, outcome_of, write_outcome};
ghost use Rattle.definition.specs.Calls.{enters, runs_unpacked, carries, abandons, reads, writes, writes_all};
ghost use Rattle.progs.specs.Contexts.{config};
ghost use Rattle.call_list.specs.Encoding.{replied_of, after_call};
ghost use Rattle.host.specs.Loading.{after_load};
ghost use Rattle.host.specs.Unpacking.{unpacking_of, after_unpacking};
ghost use Rattle.host.specs.Writing.{writing_of, after_writing};

use call_list::Replied;
use definition::Settings;
use definition::refusal::Refusal;
use progs::{ExecutionContext, load};

mod display;
mod layout;
mod making;
mod records;

// A refused load gives a context of zeros, which every operation refuses 13.
#[unsafe(no_mangle)]
pub extern "C" fn host_load(
    settings: Settings,
    file: &[u8],
    number: i64,
    cells: &mut [u32],
    store: &[u32],
    entities: &[u32],
) -> Replied
    ensures { replied_of result cells.new store.now entities.now ≡ after_load settings file.now number cells.old store.now entities.now }
{
    match load::load(settings, file, number, cells, store, entities) {
        Ok(context) => call_list::reply_checked(context, Ok(())),
        Err(refusal) => call_list::reply_checked(ExecutionContext::of_nothing(), Err(refusal)),
    }
}

#[unsafe(no_mangle)]
pub extern "C" fn host_enter(
    mut context: ExecutionContext,
    file: &[u8],
    function: i64,
    cells: &mut [u32],
    store: &mut [u32],
    entities: &[u32],
) -> Replied
    ensures { replied_of result cells.new store.new entities.now ≡ after_call (program_of file.now) (enters function) (config context cells.old store.old entities.now) }
{
    let entered = context.enter(file, function, cells, store, entities);
    call_list::reply_checked(context, entered)
}

// A run of the second engine, from the buffer (document 02, R-12).
#[unsafe(no_mangle)]
pub extern "C" fn host_run_unpacked(
    context: ExecutionContext,
    file: &[u8],
    buffer: &[u16],
    target: i64,
    limit: i64,
    cells: &mut [u32],
    store: &mut [u32],
    entities: &mut [u32],
) -> Replied
    ensures { replied_of result cells.new store.new entities.new ≡ after_call (program_of file.now) (runs_unpacked buffer.now target limit) (config context cells.old store.old entities.old) }
{
    let ran = second_engine::run_unpacked(
        context, file, buffer, target, limit, cells, store, entities,
    );
    call_list::reply_run(ran)
}

#[unsafe(no_mangle)]
pub extern "C" fn host_carry_on(
    mut context: ExecutionContext,
    file: &[u8],
    cells: &[u32],
    store: &[u32],
    entities: &[u32],
) -> Replied
    ensures { replied_of result cells.now store.now entities.now ≡ after_call (program_of file.now) carries (config context cells.now store.now entities.now) }
{
    let carried = context.carry_on(file, cells, store, entities);
    call_list::reply_checked(context, carried)
}

#[unsafe(no_mangle)]
pub extern "C" fn host_abandon(
    mut context: ExecutionContext,
    file: &[u8],
    target: i64,
    cells: &mut [u32],
    store: &[u32],
    entities: &[u32],
) -> Replied
    ensures { replied_of result cells.new store.now entities.now ≡ after_call (program_of file.now) (abandons target) (config context cells.old store.now entities.now) }
{
    let abandoned = context.abandon(file, target, cells, store, entities);
    call_list::reply_checked(context, abandoned)
}

// The detail is the cell where it is accepted.
#[unsafe(no_mangle)]
pub extern "C" fn host_read(
    context: ExecutionContext,
    file: &[u8],
    address: i64,
    cells: &[u32],
    store: &[u32],
    entities: &[u32],
) -> Replied
    ensures { replied_of result cells.now store.now entities.now ≡ after_call (program_of file.now) (reads address) (config context cells.now store.now entities.now) }
{
    let read = context.read(file, address, cells, store, entities);
    call_list::reply_value(context, read)
}

#[unsafe(no_mangle)]
pub extern "C" fn host_write(
    context: ExecutionContext,
    file: &[u8],
    address: i64,
    value: u32,
    cells: &mut [u32],
    store: &[u32],
    entities: &[u32],
) -> Replied
    ensures { replied_of result cells.new store.now entities.now ≡ after_call (program_of file.now) (writes address value) (config context cells.old store.now entities.now) }
{
    let written = context.write(file, address, value, cells, store, entities);
    call_list::reply_checked(context, written)
}

// The pairs of address and value in `numbers`, all or none (document 02, R-9).
#[unsafe(no_mangle)]
pub extern "C" fn host_write_all(
    context: ExecutionContext,
    file: &[u8],
    numbers: &[i64],
    cells: &mut [u32],
    store: &[u32],
    entities: &[u32],
) -> Replied
    ensures { replied_of result cells.new store.now entities.now ≡ after_call (program_of file.now) (writes_all numbers.now) (config context cells.old store.now entities.now) }
{
    let written = context.write_all(file, numbers, cells, store, entities);
    call_list::reply_checked(context, written)
}

// A written program is no longer than a file may be, so its length has room in 32 bits.
fn write_file(
    context: &ExecutionContext,
    file: &[u8],
    cells: &[u32],
    store: &[u32],
    entities: &[u32],
    output: &mut [u8],
) -> Result<u32, Refusal>
    ensures { outcome_of result output.new ≡ write_outcome output.old (write_file file.now output.old (config context.now cells.now store.now entities.now)) }
{
    let length = image::write_file(context, file, cells, store, entities, output)?;
    Ok(length as u32)
}

// The program of the file at the front of the output buffer (document 02, R-6). The detail is its length where it is accepted.
#[unsafe(no_mangle)]
pub extern "C" fn host_write_file(
    context: ExecutionContext,
    file: &[u8],
    cells: &[u32],
    store: &[u32],
    entities: &[u32],
    output: &mut [u8],
) -> Replied
    ensures { writing_of result output.new ≡ after_writing file.now output.old context cells.now store.now entities.now }
{
    let written = write_file(&context, file, cells, store, entities, output);
    call_list::reply_value(context, written)
}

// The file's statements at the front of the buffer (document 02, R-12).
#[unsafe(no_mangle)]
pub extern "C" fn host_unpack(
    context: ExecutionContext,
    file: &[u8],
    buffer: &mut [u16],
    cells: &[u32],
    store: &[u32],
    entities: &[u32],
) -> Replied
    ensures { unpacking_of result buffer.new ≡ after_unpacking file.now buffer.old context cells.now store.now entities.now }
{
    let unpacked = unpacked::unpack(&context, file, buffer, cells, store, entities);
    call_list::reply_checked(context, unpacked)
}
