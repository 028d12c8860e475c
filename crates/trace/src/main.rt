// Reads records through the view, and goes through programs statement by statement by the outermost step, as the lines on standard input say.
// The lines, and what must be printed, come from tests/model by tools/cases.py; tests/model/README.md has the formats.
#![tactic(auto)]

ghost use Rattle.std.specs.Prelude.{◌≤◌, vec_len};

use cases::answers::Said;
use cases::machine::Machine;
use definition::SAVED_STORE;
use std::alloc::{AllocError, Global};
use std::io;
use std::io::{BufWriter, Write};
use vectors::lines::{Lines, Place};
use vectors::put;

mod records;

// The most of the input that is read: an array holds it.
const MOST_INPUT: usize = 65_536;

// All bytes that a line can lend: those after a file are an earlier file's, or zeros.
const BYTES: usize = 4_096;

const CELLS: usize = 64;

// The most entity cells that are lent.
const ENTITY_CELLS: usize = 512;

// All room is taken at once, so that no line can run out of memory.
fn new_machine(alloc: Global) -> Result<Machine, AllocError> {
    let mut machine = Machine::new(alloc);
    machine.file.resize(BYTES, 0)?;
    machine.cells.resize(CELLS, 0)?;
    machine.store.resize(SAVED_STORE, 0)?;
    machine.entities.reserve_exact(ENTITY_CELLS)?;
    Ok(machine)
}

// The line `new LENGTH HEX E L`: the file is loaded. Where another number of entity cells was lent before, new ones are.
fn load(machine: &mut Machine, line: Place<'_>) -> Result<Said, AllocError> {
    let length = line.next_word();
    let number = length.next_word().next_word();
    let lent = number.next_word().count(ENTITY_CELLS);
    if lent != machine.entities.len() {
        machine.entities.clear();
        machine.entities.resize(lent, 0)?;
    }
    let n = length.file(&mut machine.file);
    Ok(machine.load_first(n, number.signed()))
}

fn enter(machine: &mut Machine, lent: usize, function: i64) -> Said
    requires { lent ≤ vec_len machine.old.file }
{
    machine
        .context
        .enter(
            &machine.file[..lent],
            function,
            &mut machine.cells,
            &mut machine.store,
            &machine.entities,
        )
        .into()
}

// One step, with the record of the statement before it.
fn step<W: Write>(out: &mut W, machine: &mut Machine, lent: usize) -> io::Result<Said>
    requires { lent ≤ vec_len machine.old.file }
{
    let context = machine.context;
    let file = &machine.file[..lent];
    records::write_statement(out, view::read_statement(file, context.file, context.pc))?;
    write!(out, " ")?;
    let stepped = stepping::step_once(
        context,
        file,
        &mut machine.cells,
        &mut machine.store,
        &mut machine.entities,
    );
    machine.context = stepped.context;
    Ok(stepped.answer.into())
}

// A line about the file: its first letter says what is done, then come a number and how many of the file's bytes are lent. Each has an arm, since each prints
// what is its own.
fn perform<W: Write>(out: &mut W, machine: &mut Machine, line: Place<'_>) -> io::Result<()> {
    let numbers = line.numbers();
    let n = numbers.first;
    let lent = machine.file.len().min(numbers.value as usize);
    let file = &machine.file[..lent];
    let recorded = machine.context.file;
    match line.letter() {
        b's' => records::write_statement(out, view::read_statement(file, recorded, n)),
        b'f' => records::write_function(out, view::read_function(file, recorded, n)),
        b'd' => records::write_definition(out, view::read_definition(file, recorded, n)),
        b'b' => {
            put(
                &mut machine.file,
                numbers.place,
                (numbers.value % 256) as u8,
            );
            write!(out, "{}", Said::Accepted(0))
        }
        b'e' => {
            let said = enter(machine, lent, n);
            write!(out, "{said} {machine}")
        }
        _ => {
            let said = step(out, machine, lent)?;
            write!(out, "{said} {machine}")
        }
    }
}

// Each file is loaded before the lines about it; the state before the first is all zeros.
fn perform_lines<W: Write>(alloc: Global, text: &[u8], out: &mut W) -> io::Result<()> {
    let mut machine = new_machine(alloc)?;
    for line in Lines::of(text) {
        if line.letter() == b'n' {
            write!(out, "{}", load(&mut machine, line)?)?;
        } else {
            perform(out, &mut machine, line)?;
        }
        writeln!(out)?;
    }
    Ok(())
}

fn main(rt: HostRuntime) -> io::Result<()> {
    let mut out = BufWriter::new(rt.alloc(), rt.stdout())?;
    let mut text = [0u8; MOST_INPUT];
    let n = streams::read_full(&mut rt.stdin(), &mut text)?;
    perform_lines(rt.alloc(), &text[..n], &mut out)?;
    out.flush()
}
