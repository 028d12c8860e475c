// A state is the host's to make up: a number of it is changed, by the numbering of tests/model/README.md. So each number has an arm.
use definition::{FileRecord, GREATEST_DEPTH, Settings};
use progs::ExecutionContext;

// For a number below 0, which a state can't hold, another than the file's.
fn natural(v: i64) -> usize {
    usize::try_from(v).unwrap_or(usize::MAX)
}

// The file's length, the header's lump numbers in its order, the cells per entity.
fn set_number(file: &mut FileRecord, i: usize, v: usize) {
    match i {
        0 => file.length = v,
        1 => file.statements.offset = v,
        2 => file.statements.count = v,
        3 => file.globaldefs.offset = v,
        4 => file.globaldefs.count = v,
        5 => file.fielddefs.offset = v,
        6 => file.fielddefs.count = v,
        7 => file.functions.offset = v,
        8 => file.functions.count = v,
        9 => file.strings.offset = v,
        10 => file.strings.count = v,
        11 => file.globals.offset = v,
        12 => file.globals.count = v,
        _ => file.entityfields = v,
    }
}

// From the check number on.
fn set_setting(settings: &mut Settings, i: usize, v: usize) {
    match i {
        81 => settings.check_number = v,
        82 => settings.depth = v,
        83 => settings.saved = v,
        _ => settings.limit = v,
    }
}

// Position and function of each frame, the lowest first. After the last they begin anew.
fn set_frame(context: &mut ExecutionContext, i: usize, v: i64) {
    let frame = &mut context.frames[i / 2 % GREATEST_DEPTH];
    if i % 2 == 0 {
        frame.instr_id = v;
    } else {
        frame.func_id = natural(v);
    }
}

pub fn set(context: &mut ExecutionContext, i: usize, v: i64) {
    match i {
        0..=13 => set_number(&mut context.file, i, natural(v)),
        14 => context.pc = v,
        15 => context.current_function = natural(v),
        16 => context.depth = natural(v),
        17 => context.saved = natural(v),
        80 => context.entity_count = natural(v),
        81..=84 => set_setting(&mut context.settings, i, natural(v)),
        _ => set_frame(context, i - 18, v),
    }
}
