// One line of a list: a call of the machine, or a change that the host makes.
use crate::{LENT_ENTITIES, fields, number_cells};
use cases::answers::Said;
use cases::machine::Machine;
use std::alloc::AllocError;
use vectors::lines::{Numbers, Place};
use vectors::put;

// `lend` begins as `load` does, and `eput` as `enter`.
fn is_change(line: Place<'_>) -> bool {
    matches!(line.letter(), b'b' | b'f') || line.starts_with(b"le") || line.starts_with(b"ep")
}

// A change that the host makes: a byte of the file, the entity cells that are lent from now on, one of them, or a number of the state.
fn change(machine: &mut Machine, letter: u8, numbers: Numbers) -> Result<(), AllocError> {
    let place = numbers.place;
    let cell = (numbers.value % 0x1_0000_0000) as u32;
    match letter {
        b'b' => put(&mut machine.file, place, (cell % 256) as u8),
        b'l' => number_cells(&mut machine.entities, place.min(LENT_ENTITIES), cell)?,
        b'e' => put(&mut machine.entities, place, cell),
        _ => fields::set(&mut machine.context, place, numbers.second),
    }
    Ok(())
}

fn statement(machine: &mut Machine) -> Said {
    let stepped = server::statement(
        machine.context,
        &machine.file,
        &mut machine.cells,
        &mut machine.store,
        &mut machine.entities,
    );
    machine.context = stepped.context;
    stepped.answer.into()
}

// With the count of completed statements.
fn run(machine: &mut Machine, target: i64, limit: i64) -> (Said, u32) {
    let ran = server::run(
        machine.context,
        &machine.file,
        target,
        limit,
        &mut machine.cells,
        &mut machine.store,
        &mut machine.entities,
    );
    machine.context = ran.context;
    (ran.answer.into(), ran.count)
}

// What a call answers, and how many statements were completed. Its first letter says which it is, and the numbers follow. A change is always accepted.
pub fn perform(machine: &mut Machine, line: Place<'_>) -> Result<(Said, u32), AllocError> {
    let numbers = line.numbers();
    if is_change(line) {
        change(machine, line.letter(), numbers)?;
        return Ok((Said::Accepted(0), 0));
    }
    let n = numbers.first;
    let cell = (numbers.value % 0x1_0000_0000) as u32;
    let Machine {
        context,
        file,
        cells,
        store,
        entities,
    } = machine;
    let said = match line.letter() {
        b'l' => machine.load(n),
        b'e' => context.enter(file, n, cells, store, entities).into(),
        b's' => statement(machine),
        b'r' => return Ok(run(machine, n, numbers.second)),
        b'c' => context.carry_on(file, cells, store, entities).into(),
        b'a' => context.abandon(file, n, cells, store, entities).into(),
        b'g' => context.read(file, n, cells, store, entities).into(),
        _ => context.write(file, n, cell, cells, store, entities).into(),
    };
    Ok((said, 0))
}
