// Check 13: the file and the lent buffers are as the context records, and the context is one that entries and leavings can make.
ghost use Rattle.std.specs.Prelude.{◌≡◌, ◌&&◌, ◌≤◌, eqb};
ghost use Rattle.definition.specs.Load.{program_of};
ghost use Rattle.definition.specs.Operations.{entered_functions, all_present, locals_of, sound};
ghost use Rattle.progs.specs.Contexts.{state_of, config, Loaded};

use crate::ExecutionContext;
use definition::SAVED_STORE;
use functions::header;

impl ExecutionContext {
    // The entered functions are there, none of negative local count, and the saved cells number the sum of their local counts: the sum of so few counts
    // can't wrap.
    fn locals_add_up(&self, file: &[u8]) -> bool
        requires loaded { Loaded file.now self.now.file }
        requires depth_bound { self.now.depth ≤ 31 }
        ensures { result ≡ (all_present (program_of file.now) (entered_functions (state_of self.now)) && eqb self.now.saved (locals_of (program_of file.now) (entered_functions (state_of self.now)))) }
    {
        let mut sum: usize = 0;
        let mut f = self.current_function;
        for frame in self.frames[..self.depth].iter().rev() {
            if self.file.functions.count <= f {
                return false;
            }
            let def = self.get_def(file, f);
            if 2147483648 <= def.locals {
                return false;
            }
            sum += def.locals as usize;
            f = frame.func_id;
        }
        self.saved == sum
    }

    #[tactic(auto, using(crate::proofs::StateLaws::size_most, crate::proofs::StateLaws::loaded_of, crate::proofs::StateLaws::depth_most), unfolding(definition::specs::Operations::sound, definition::specs::Load::program_with))]
    pub fn check_state(&self, file: &[u8], cells: &[u32], store: &[u32], entities: &[u32]) -> bool
        ensures { result ≡ sound (program_of file.now) (config self.now cells.now store.now entities.now) }
    {
        header::recorded_in(file, self.file, cells.len())
            && SAVED_STORE <= store.len()
            && header::entities_fit(self.entity_count, self.file.entityfields, entities.len())
            && header::settings_fit(self.settings)
            && self.depth <= self.settings.depth
            && self.saved <= self.settings.saved
            && self.locals_add_up(file)
    }
}
