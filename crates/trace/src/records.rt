// What a trace prints of a record: its numbers as their unsigned bits.
use definition::refusal::Refusal;
use definition::{Definition, FunctionDef, Statement};
use std::io;
use std::io::Write;

pub fn write_statement<W: Write>(
    out: &mut W,
    found: Result<(usize, Statement), Refusal>,
) -> io::Result<()> {
    match found {
        Ok((k, s)) => write!(out, "at {k} {} {} {} {}", s.opcode, s.arg1, s.arg2, s.arg3),
        Err(refusal) => write!(out, "refused {}", refusal.number()),
    }
}

// Zeros where it is refused.
pub fn write_function<W: Write>(
    out: &mut W,
    found: Result<FunctionDef, Refusal>,
) -> io::Result<()> {
    match found {
        Ok(_) => write!(out, "accepted 0")?,
        Err(refusal) => write!(out, "refused {}", refusal.number())?,
    }
    let def = found.unwrap_or_default();
    write!(out, " {} {} {}", def.first, def.start, def.locals)?;
    write!(out, " {} {} {}", def.name, def.srcfile, def.argc)?;
    for size in def.argsz {
        write!(out, " {size}")?;
    }
    Ok(())
}

pub fn write_definition<W: Write>(
    out: &mut W,
    found: Result<Option<Definition>, Refusal>,
) -> io::Result<()> {
    match found {
        Ok(Some(d)) => write!(out, "at {} {} {}", d.kind, d.offset, d.name),
        Ok(None) => write!(out, "none"),
        Err(refusal) => write!(out, "refused {}", refusal.number()),
    }
}
