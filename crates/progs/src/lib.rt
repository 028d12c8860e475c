// The machine: its context, and the calls that a host makes on it (progs/mod.rs and server/mod.rs of the Rust). Every call checks 13 first.
#![tactic(auto)]

ghost use Rattle.std.specs.Prelude.{◌≡◌};
ghost use Rattle.definition.specs.Load.{program_of};
ghost use Rattle.definition.specs.Operations.{host_enter};
ghost use Rattle.progs.specs.Contexts.{config, outcome_of, after};

use definition::refusal::Refusal;
use definition::{FileRecord, GREATEST_DEPTH, Settings, StackFrame};
use functions::fetch;

mod abandon;
pub mod calls;
mod carry_on;
mod cell_pairs;
mod copies;
pub mod load;
mod raw;
mod state;

// All that an operation leaves for the next, beside the lent bytes, cells, saved store and entity cells.
#[repr(C)]
#[derive(Clone, Copy)]
pub struct ExecutionContext {
    pub file: FileRecord,
    // Those of the load (document 02, R-11).
    pub settings: Settings,
    pub pc: i64,
    pub current_function: usize,
    // How many frames are in use, and how many cells of the saved store: the C interface has counts beside a fixed array and a lent store.
    pub depth: usize,
    pub saved: usize,
    // How many entities there are (document 02, R-3).
    pub entity_count: usize,
    pub frames: [StackFrame; GREATEST_DEPTH],
}

// What is lent comes with each call as plain slices, as in the C interface.
impl ExecutionContext {
    // The host enters a function, which is to go back to the present position.
    #[tactic(auto, using(crate::proofs::StateLaws::own, crate::proofs::HostLaws::enter_13, crate::proofs::HostLaws::enter_sound))]
    pub fn enter(
        &mut self,
        file: &[u8],
        function: i64,
        cells: &mut [u32],
        store: &mut [u32],
        entities: &[u32],
    ) -> Result<(), Refusal>
        ensures { outcome_of result self.new cells.new store.new entities.now ≡ after (config self.old cells.old store.old entities.now) (host_enter (program_of file.now) function) }
    {
        if !self.check_state(file, cells, store, entities) {
            return Err(Refusal::State);
        }
        let f = fetch::place_of(self.file.functions.count, function);
        self.enter_function(file, f, self.pc, cells, store)
    }
}
