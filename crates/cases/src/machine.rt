// A machine, and all that is lent to it.
use crate::answers::Said;
use crate::digest::Digest;
use functions::header;
use progs::{ExecutionContext, load};
use std::alloc::Global;
use std::fmt;
use std::fmt::Write;

#[derive(Drop)]
pub struct Machine {
    pub context: ExecutionContext,
    pub file: Vec<u8>,
    pub cells: Vec<u32>,
    pub store: Vec<u32>,
    pub entities: Vec<u32>,
}

impl Machine {
    // A context of zeros, to which nothing is lent.
    pub fn new(alloc: Global) -> Machine {
        Machine {
            context: ExecutionContext::of_nothing(),
            file: Vec::new(alloc),
            cells: Vec::new(alloc),
            store: Vec::new(alloc),
            entities: Vec::new(alloc),
        }
    }

    // Where it is refused, the context is of zeros again.
    pub fn load(&mut self, number: i64) -> Said {
        let length = self.file.len();
        self.load_first(length, number)
    }

    // The same of the file's first bytes alone, so many of them as there are.
    pub fn load_first(&mut self, length: usize, number: i64) -> Said {
        let settings = header::standard();
        let length = length.min(self.file.len());
        match load::load(
            settings,
            &self.file[..length],
            number,
            &mut self.cells,
            &self.store,
            &self.entities,
        ) {
            Ok(context) => {
                self.context = context;
                Said::Accepted(0)
            }
            Err(refusal) => {
                self.context = ExecutionContext::of_nothing();
                Said::Refused(refusal.number())
            }
        }
    }
}

// Position, function, depth, saved count, and the digest of frames, cells, saved store and entity cells.
impl fmt::Display for Machine {
    fn fmt<W: fmt::Write>(&self, f: &mut fmt::Formatter<W>) -> fmt::Result {
        let context = self.context;
        let mut digest = Digest::new();
        for frame in context.frames {
            write!(digest, "{},{};", frame.instr_id, frame.func_id)?;
        }
        digest.cells(&self.cells);
        digest.cells(&self.store);
        digest.cells(&self.entities);
        write!(
            f,
            "{} {} {} {} {digest}",
            context.pc, context.current_function, context.depth, context.saved
        )
    }
}
