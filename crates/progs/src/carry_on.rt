// Carrying on: past a statement that was handed over.
ghost use Rattle.std.specs.Prelude.{◌≡◌, ◌<◌, pos, IfOk};
ghost use Rattle.definition.specs.Checks.{judge};
ghost use Rattle.definition.specs.Refusals.{refusal_in};
ghost use Rattle.definition.specs.Statements.{Entities};
ghost use Rattle.definition.specs.Load.{program_of};
ghost use Rattle.definition.specs.Operations.{carry_on};
ghost use Rattle.progs.specs.Contexts.{config, outcome_of, after, onward, Lent};

use crate::ExecutionContext;
use definition::STATEMENT_SIZE;
use definition::refusal::Refusal;
use functions::{fetch, parts};

impl ExecutionContext {
    // The index of the statement at the position, which is looked at, not executed. No entity cell decides whether it is handed over.
    fn handed_over(&self, file: &[u8], cells: &[u32], store: &[u32]) -> Result<usize, Refusal>
        requires { Lent file.now self.now cells.now store.now }
        ensures refusal { (e : Entities) → refusal_in result ≡ judge (onward (program_of file.now) self.now.pc e cells.now) }
        ensures index { IfOk result (λ k. (self.now.pc ≡ pos k) × (k < 2147483648)) }
    {
        let statements = parts::part(file, STATEMENT_SIZE, self.file.statements);
        let (k, statement) = fetch::fetch(statements, self.pc)?;
        if !execution::hands_over(file, self.file, cells, statement) {
            return Err(Refusal::NotHandedOver);
        }
        Ok(k)
    }

    #[tactic(auto, using(crate::proofs::StateLaws::own, crate::proofs::HostLaws::carry_13, crate::proofs::HostLaws::carry_sound))]
    pub fn carry_on(
        &mut self,
        file: &[u8],
        cells: &[u32],
        store: &[u32],
        entities: &[u32],
    ) -> Result<(), Refusal>
        ensures { outcome_of result self.new cells.now store.now entities.now ≡ after (config self.old cells.now store.now entities.now) (carry_on (program_of file.now)) }
    {
        if !self.check_state(file, cells, store, entities) {
            return Err(Refusal::State);
        }
        let k = self.handed_over(file, cells, store)?;
        self.pc = fetch::after(k);
        Ok(())
    }
}
