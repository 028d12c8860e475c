// The operation that writes a loaded program (document 02, R-6): check 13, then the program of the lent file as `writer` writes it.
#![tactic(auto)]

ghost use Rattle.std.specs.Prelude.{◌≡◌};
ghost use Rattle.definition.specs.Written.{write_file, write_outcome, outcome_of};
ghost use Rattle.progs.specs.Contexts.{config};

use definition::refusal::Refusal;
use progs::ExecutionContext;

// The lent cells, store and entity cells are looked at by check 13 alone: what is written is in the file. They come as plain slices, as in the C interface.
#[tactic(auto, using(progs::proofs::StateLaws::passed, functions::specs::Laws::lump_fitting, writing_laws::specs::Lumps::padded_none, crate::proofs::Thirteen::refused_13, crate::proofs::Thirteen::past_13))]
pub fn write_file(
    context: &ExecutionContext,
    file: &[u8],
    cells: &[u32],
    store: &[u32],
    entities: &[u32],
    output: &mut [u8],
) -> Result<usize, Refusal>
    ensures { outcome_of result output.new ≡ write_outcome output.old (write_file file.now output.old (config context.now cells.now store.now entities.now)) }
{
    if !context.check_state(file, cells, store, entities) {
        return Err(Refusal::State);
    }
    let check = context.settings.check_number as u32;
    writer::write_program(output, check, file, context.file, 0)
}
