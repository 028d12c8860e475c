// Raw access: the host reads and writes a cell by its address.
ghost use Rattle.std.specs.Prelude.{◌≡◌};
ghost use Rattle.definition.specs.Refusals.{checked};
ghost use Rattle.definition.specs.Load.{program_of};
ghost use Rattle.definition.specs.Operations.{raw_read, raw_write};
ghost use Rattle.progs.specs.Contexts.{config, outcome_of, after, raw_place};

use crate::ExecutionContext;
use definition::refusal::Refusal;
use functions::fetch;

impl ExecutionContext {
    // The cell at an address.
    #[tactic(auto, using(crate::proofs::HostLaws::place_13, crate::proofs::HostLaws::place_15, crate::proofs::HostLaws::place_found))]
    fn place(
        &self,
        file: &[u8],
        address: i64,
        cells: &[u32],
        store: &[u32],
        entities: &[u32],
    ) -> Result<usize, Refusal>
        ensures { checked result ≡ raw_place (program_of file.now) address (config self.now cells.now store.now entities.now) }
    {
        if !self.check_state(file, cells, store, entities) {
            return Err(Refusal::State);
        }
        let count = self.file.globals.count;
        let at = fetch::place_of(count, address);
        if at < count {
            Ok(at)
        } else {
            Err(Refusal::Address)
        }
    }

    #[tactic(auto, using(crate::proofs::HostLaws::read_by, crate::proofs::HostLaws::place_inside))]
    pub fn read(
        &self,
        file: &[u8],
        address: i64,
        cells: &[u32],
        store: &[u32],
        entities: &[u32],
    ) -> Result<u32, Refusal>
        ensures { checked result ≡ raw_read (program_of file.now) address (config self.now cells.now store.now entities.now) }
    {
        Ok(cells[self.place(file, address, cells, store, entities)?])
    }

    #[tactic(auto, using(crate::proofs::HostLaws::write_by, crate::proofs::HostLaws::place_inside))]
    pub fn write(
        &self,
        file: &[u8],
        address: i64,
        value: u32,
        cells: &mut [u32],
        store: &[u32],
        entities: &[u32],
    ) -> Result<(), Refusal>
        ensures { outcome_of result self.now cells.new store.now entities.now ≡ after (config self.now cells.old store.now entities.now) (raw_write (program_of file.now) address value) }
    {
        let at = self.place(file, address, cells, store, entities)?;
        cells[at] = value;
        Ok(())
    }
}
