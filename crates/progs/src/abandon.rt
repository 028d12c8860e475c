// Abandonment: functions are left, innermost first, down to a depth. Whether a leaving is refused depends on no cell, so that all are tried on
// contexts alone before the first is done, and a refusal has nothing to undo.
ghost use Rattle.std.specs.Prelude.{◌≡◌, List, ℕ, ◌-◌, ◌≤◌};
ghost use Rattle.definition.specs.Checks.{judge};
ghost use Rattle.definition.specs.Refusals.{refusal_in};
ghost use Rattle.definition.specs.Load.{program_of};
ghost use Rattle.definition.specs.Operations.{left_times, leavings_conditions, abandon};
ghost use Rattle.progs.specs.Contexts.{config, outcome_of, after, bare, Loaded, Lent};

use crate::ExecutionContext;
use definition::refusal::Refusal;
use functions::fetch;

impl ExecutionContext {
    // The leavings down to the depth `target`.
    fn check_leavings(&self, file: &[u8], target: usize) -> Result<(), Refusal>
        requires loaded { Loaded file.now self.now.file }
        requires depth_bound { self.now.depth ≤ 31 }
        ensures { refusal_in result ≡ judge (leavings_conditions (program_of file.now) (self.now.depth - target) (bare self.now)) }
    {
        let mut context = *self;
        for _ in target..self.depth {
            let locals = context.locals(file);
            context.check_leaving(locals)?;
            context.pop_frame(locals.count);
        }
        Ok(())
    }

    // Leaves functions down to the depth `target`, none of which is refused.
    fn unwind(&mut self, file: &[u8], target: usize, cells: &mut [u32], store: &[u32])
        requires within { Lent file.now self.old cells.old store.now }
        requires self_value { judge (leavings_conditions (program_of file.now) (self.old.depth - target) (bare self.old)) ≡ 0 }
        ensures { (entities : List ℕ) → config self.new cells.new store.now entities ≡ left_times (program_of file.now) (self.old.depth - target) (config self.old cells.old store.now entities) }
    {
        for _ in target..self.depth {
            let locals = self.locals(file);
            self.leave_function(locals, cells, store);
        }
    }

    #[tactic(auto, using(crate::proofs::StateLaws::own, crate::proofs::HostLaws::abandon_13, crate::proofs::HostLaws::abandon_29, crate::proofs::HostLaws::abandon_sound, crate::proofs::OutcomeLaws::guard_number, crate::proofs::OutcomeLaws::guard_clear))]
    pub fn abandon(
        &mut self,
        file: &[u8],
        target: i64,
        cells: &mut [u32],
        store: &[u32],
        entities: &[u32],
    ) -> Result<(), Refusal>
        ensures { outcome_of result self.new cells.new store.now entities.now ≡ after (config self.old cells.old store.now entities.now) (abandon (program_of file.now) target) }
    {
        if !self.check_state(file, cells, store, entities) {
            return Err(Refusal::State);
        }
        let down = fetch::place_of(self.depth + 1, target);
        if self.depth < down {
            return Err(Refusal::TargetDepth);
        }
        self.check_leavings(file, down)?;
        self.unwind(file, down, cells, store);
        Ok(())
    }
}
