// What the show program prints for a file: document 01's last situation, over the machine's operations.
// What is lent comes as plain slices, as in the C interface.
#![tactic(auto)]

ghost use Rattle.std.specs.Prelude.{◌≡◌, ◌≤◌, length, get_or};
ghost use Rattle.definition.specs.Load.{program_of};
ghost use Rattle.progs.specs.Contexts.{state_of, config};
ghost use Rattle.server.specs.Stepping.{ran_of};
ghost use Rattle.text.specs.Output.{output, at_front};
ghost use Rattle.shown.specs.Shown.{state_line, entered_and_run, shown, printed, at_front_of};

use definition::GREATEST_LIMIT;
use definition::refusal::Refusal;
use functions::header;
use progs::{ExecutionContext, load};
use server::Ran;
use text::Line;

// 01: the show program reads "a file of at most 65,536 bytes".
pub const LONGEST_INPUT: usize = 65536;

// Its run's limit is the greatest.
const LIMIT: i64 = GREATEST_LIMIT as i64;

// "entities none"
const NO_ENTITIES: i64 = 0;

// 0 past the end. (After an accepted load there are 64 cells or more.)
fn cell_at(cells: &[u32], i: usize) -> u32
    ensures { result ≡ get_or cells.now i 0 }
{
    cells.get(i).copied().unwrap_or(0)
}

fn state_line(line: &mut [u8], ran: Ran, cells: &[u32]) -> usize
    requires { 160 ≤ length line.old }
    ensures result_after { output line.new result ≡ at_front (state_line ran.answer ran.count (state_of ran.context) cells.now) line.old }
    ensures upper_bound { result ≤ 160 }
{
    let context = ran.context;
    text::show_line(
        line,
        Line {
            answer: ran.answer,
            count: ran.count,
            pc: context.pc,
            function: context.current_function,
            depth: context.depth,
            saved: context.saved,
            c1: cell_at(cells, 1),
            c2: cell_at(cells, 2),
            c3: cell_at(cells, 3),
        },
    )
}

// Enters function 1 and runs to depth 0. A refused entry is a run that completes nothing.
#[tactic(auto, using(crate::proofs::Laws::entry_accepted))]
fn enter_and_run(
    mut context: ExecutionContext,
    file: &[u8],
    cells: &mut [u32],
    store: &mut [u32],
    entities: &mut [u32],
) -> Ran
    ensures { ran_of result cells.new store.new entities.new ≡ entered_and_run (program_of file.now) (config context cells.old store.old entities.old) }
{
    match context.enter(file, 1, cells, store, entities) {
        Ok(()) => server::run(context, file, 0, LIMIT, cells, store, entities),
        Err(refusal) => Ran::refused(context, refusal, 0),
    }
}

// The line stands at the front of `line`; the result is its length.
#[tactic(auto, using(crate::proofs::Laws::too_long, crate::proofs::Laws::prints))]
pub fn show(
    file: &[u8],
    cells: &mut [u32],
    store: &mut [u32],
    entities: &mut [u32],
    line: &mut [u8],
) -> usize
    requires { 160 ≤ length line.old }
    ensures entities_after { printed (output line.new result) cells.new store.new entities.new ≡ at_front_of line.old (shown file.now cells.old store.old entities.old) }
    ensures upper_bound { result ≤ 160 }
{
    if LONGEST_INPUT < file.len() {
        return text::refused_line(line, Refusal::FileLength.number());
    }
    match load::load(
        header::standard(),
        file,
        NO_ENTITIES,
        cells,
        store,
        entities,
    ) {
        Ok(context) => {
            let ran = enter_and_run(context, file, cells, store, entities);
            state_line(line, ran, cells)
        }
        Err(refusal) => text::refused_line(line, refusal.number()),
    }
}
