// The load (progs/mod.rs): the file is checked, its starting cells fill the lent ones, and the context is at the start.
ghost use Rattle.std.specs.Prelude.{◌≡◌};
ghost use Rattle.definition.specs.Machine.{start_state};
ghost use Rattle.definition.specs.Load.{load};
ghost use Rattle.definition.specs.Answers.{no_state, load_outcome};
ghost use Rattle.progs.specs.Contexts.{state_of, loading_of};

use crate::ExecutionContext;
use definition::refusal::Refusal;
use definition::{
    CELL_SIZE, FileRecord, GREATEST_DEPTH, LEAST_CELLS, MOST_ENTITIES, Settings, StackFrame,
};
use functions::{fetch, header, parts};

impl ExecutionContext {
    // Position, function and depths are 0, and so are the frames.
    fn at_start(settings: Settings, file: FileRecord, number: usize) -> ExecutionContext
        ensures { state_of result ≡ start_state settings file number }
    {
        ExecutionContext {
            file,
            settings,
            pc: 0,
            current_function: 0,
            depth: 0,
            saved: 0,
            entity_count: number,
            frames: [StackFrame::default(); GREATEST_DEPTH],
        }
    }

    // A context of zeros, which every operation refuses 13.
    pub fn of_nothing() -> ExecutionContext
        ensures { state_of result ≡ no_state }
    {
        ExecutionContext::at_start(Settings::default(), FileRecord::default(), 0)
    }
}

// A load under these settings, for so many entities: a negative number is one too many. The lent cells past the file's count, the saved store and the
// entity cells stay as they are.
#[tactic(auto, using(crate::proofs::LoadLaws::load_36, crate::proofs::LoadLaws::load_refused))]
pub fn load(
    settings: Settings,
    file: &[u8],
    number: i64,
    cells: &mut [u32],
    store: &[u32],
    entities: &[u32],
) -> Result<ExecutionContext, Refusal>
    ensures { loading_of result cells.new store.now entities.now ≡ load_outcome cells.old store.now entities.now (load settings file.now number cells.old store.now entities.now) }
{
    if !header::settings_fit(settings) {
        return Err(Refusal::Settings);
    }
    let given = fetch::place_of(MOST_ENTITIES + 1, number);
    loader::check_file(
        file,
        LEAST_CELLS,
        settings.check_number,
        given,
        cells.len(),
        store.len(),
        entities.len(),
    )?;
    let recorded = header::file_of(file);
    loader::fill(parts::part(file, CELL_SIZE, recorded.globals), cells);
    Ok(ExecutionContext::at_start(settings, recorded, given))
}
