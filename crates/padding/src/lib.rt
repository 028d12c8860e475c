// What the padding program prints for a file (document 02, R-7): the file in R-6's form with zero cells added up to 64, or a refusal.
#![tactic(auto)]

ghost use Rattle.std.specs.Prelude.{◌≡◌, ◌≤◌, length};
ghost use Rattle.definition.specs.Checks.{guard};
ghost use Rattle.definition.specs.Written.{padded_file, placed, write_outcome, outcome_of};
ghost use Rattle.text.specs.Output.{output, at_front};
ghost use Rattle.padding.specs.Padding.{pad_conditions, pad_text};

use definition::refusal::Refusal;
use definition::{CHECK_NUMBER, LEAST_CELLS, LEAST_TO_PAD, MOST_CELLS, SAVED_STORE};
use functions::header;

// It reads "as the show program does", and writes no longer file: "over 65,536 bytes to write is 34".
pub const LONGEST: usize = 65536;

// 34 is decided by the room in `out`.
#[tactic(auto, using(crate::proofs::Laws::too_long, crate::proofs::Laws::load_refused, crate::proofs::Laws::file_written, crate::proofs::Laws::padded_as, loader::proofs::Loads::loads), unfolding(writer::specs::Outcomes::writing))]
fn write_padded(file: &[u8], out: &mut [u8]) -> Result<usize, Refusal>
    requires { length out.old ≡ 65536 }
    ensures { outcome_of result out.new ≡ write_outcome out.old (guard (pad_conditions file.now) (placed (padded_file file.now) out.old)) }
{
    if LONGEST < file.len() {
        return Err(Refusal::FileLength);
    }
    loader::check_file(
        file,
        LEAST_TO_PAD,
        CHECK_NUMBER as usize,
        0,
        MOST_CELLS,
        SAVED_STORE,
        0,
    )?;
    let recorded = header::file_of(file);
    let added = LEAST_CELLS.saturating_sub(recorded.globals.count);
    writer::write_program(out, CHECK_NUMBER, file, recorded, added)
}

// The padded file, or the line of a refusal, stands at the front of `out`; the result is its length.
pub fn pad(file: &[u8], out: &mut [u8]) -> usize
    requires { length out.old ≡ 65536 }
    ensures result_after { output out.new result ≡ at_front (pad_text file.now) out.old }
    ensures upper_bound { result ≤ 65536 }
{
    match write_padded(file, out) {
        Ok(length) => length,
        Err(refusal) => text::refused_line(out, refusal.number()),
    }
}
