// Settings of a match, written together (document 02, R-9).
ghost use Rattle.std.specs.Prelude.{◌≡◌};
ghost use Rattle.definition.specs.Load.{program_of};
ghost use Rattle.definition.specs.Operations.{write_all};
ghost use Rattle.progs.specs.Contexts.{config, outcome_of, after};

use crate::ExecutionContext;
use definition::refusal::Refusal;

impl ExecutionContext {
    // The numbers are an address and a value in turn.
    #[tactic(auto, using(crate::proofs::StateLaws::own, crate::proofs::HostLaws::write_all_13))]
    pub fn write_all(
        &self,
        file: &[u8],
        numbers: &[i64],
        cells: &mut [u32],
        store: &[u32],
        entities: &[u32],
    ) -> Result<(), Refusal>
        ensures { outcome_of result self.now cells.new store.now entities.now ≡ after (config self.now cells.old store.now entities.now) (write_all (program_of file.now) numbers.now) }
    {
        if !self.check_state(file, cells, store, entities) {
            return Err(Refusal::State);
        }
        pairs::write_all(numbers, self.file.globals.count, cells)
    }
}
