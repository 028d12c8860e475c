// Performs the lists of calls on standard input on the machine, and prints for each call its answer, the state's numbers and a digest of the rest.
// The lists, and what must be printed, come from tests/model by tools/cases.py; tests/model/README.md has the formats.
#![tactic(auto)]

use cases::machine::Machine;
use definition::{LONGEST_FILE, MOST_CELLS};
use progs::ExecutionContext;
use std::alloc::{AllocError, Global};
use std::io;
use std::io::{BufWriter, Read, Write};
use vectors::lines::{Lines, Place};

mod calls;
mod fields;

// The most of the input that is read.
const MOST_INPUT: u64 = 524_288;

// The most that is lent, whatever a line says. A file has at most one byte more than a load accepts, and at most one cell more. No case of the model lends more
// entity cells, those of single statements included.
const LENT_BYTES: usize = LONGEST_FILE + 1;

const LENT_CELLS: usize = MOST_CELLS + 1;

const LENT_STORE: usize = 2_100;

const LENT_ENTITIES: usize = 65_540;

// All room is taken at once, so that no line can run out of memory.
fn new_machine(alloc: Global) -> Result<Machine, AllocError> {
    let mut machine = Machine::new(alloc);
    machine.file.reserve_exact(LENT_BYTES)?;
    machine.cells.reserve_exact(LENT_CELLS)?;
    machine.store.reserve_exact(LENT_STORE)?;
    machine.entities.reserve_exact(LENT_ENTITIES)?;
    Ok(machine)
}

// So many cells: base, base + 1, and so on, modulo 2^32.
fn number_cells(cells: &mut Vec<u32>, count: usize, base: u32) -> Result<(), AllocError> {
    cells.resize(count, 0)?;
    let mut number = base;
    for cell in cells.iter_mut() {
        *cell = number;
        number = number.wrapping_add(1);
    }
    Ok(())
}

// The line `new CELLS SAVED ENTITIES LENGTH HEX`, with which a list begins. The state before its calls is all zeros.
fn begin(machine: &mut Machine, line: Place<'_>) -> Result<(), AllocError> {
    let cells = line.next_word();
    let saved = cells.next_word();
    let entities = saved.next_word();
    let length = entities.next_word();
    number_cells(&mut machine.cells, cells.count(LENT_CELLS), 0xdead_0000)?;
    number_cells(&mut machine.store, saved.count(LENT_STORE), 0xbeef_0000)?;
    number_cells(
        &mut machine.entities,
        entities.count(LENT_ENTITIES),
        0xcafe_0000,
    )?;
    machine.file.resize(length.count(LENT_BYTES), 0)?;
    length.next_word().bytes(&mut machine.file);
    machine.context = ExecutionContext::of_nothing();
    Ok(())
}

fn perform_lists<W: Write>(alloc: Global, text: &[u8], out: &mut W) -> io::Result<()> {
    let mut machine = new_machine(alloc)?;
    for line in Lines::of(text) {
        if line.letter() == b'n' {
            begin(&mut machine, line)?;
        } else {
            let (said, count) = calls::perform(&mut machine, line)?;
            writeln!(out, "{said} {count} {machine}")?;
        }
    }
    Ok(())
}

// One function with the work as a parameter would take what these lines take.
fn main(rt: HostRuntime) -> io::Result<()> {
    let mut out = BufWriter::new(rt.alloc(), rt.stdout())?;
    let mut text = Vec::new(rt.alloc());
    rt.stdin().take(MOST_INPUT).read_to_end(&mut text)?;
    perform_lists(rt.alloc(), &text, &mut out)?;
    out.flush()
}
