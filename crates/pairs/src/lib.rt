// Settings of a match, written together (document 02, R-9): numbers that a host gives, an address and a value in turn. All the pairs are checked before the first
// one is written, so that a refusal has written none.
#![tactic(auto)]

ghost use Rattle.std.specs.Prelude.{◌≡◌, ◌≤◌, length};
ghost use Rattle.definition.specs.Checks.{judge};
ghost use Rattle.definition.specs.CheckLaws.{All};
ghost use Rattle.definition.specs.Operations.{pair_conditions, pairs_conditions, pairs_written};
ghost use Rattle.definition.specs.Refusals.{refusal_in};
ghost use Rattle.pairs.specs.Together.{unless_refused};

use definition::MOST_PAIRS;
use definition::refusal::Refusal;
use functions::fetch;

fn check_pairs(numbers: &[i64], count: usize) -> Result<(), Refusal>
    ensures { refusal_in result ≡ judge (pair_conditions count numbers.now) }
{
    for pair in numbers.chunks_exact(2) {
        if count <= fetch::place_of(count, pair[0]) {
            return Err(Refusal::Address);
        }
        if u32::try_from(pair[1]).is_err() {
            return Err(Refusal::Address);
        }
    }
    Ok(())
}

#[tactic(auto, unfolding(definition::specs::Checks::judge, definition::specs::Operations::pairs_conditions))]
fn check_numbers(numbers: &[i64], count: usize) -> Result<(), Refusal>
    ensures { refusal_in result ≡ judge (pairs_conditions count numbers.now) }
{
    if numbers.len() % 2 != 0 {
        return Err(Refusal::Address);
    }
    if 2 * MOST_PAIRS < numbers.len() {
        return Err(Refusal::Address);
    }
    check_pairs(numbers, count)
}

fn write_pairs(numbers: &[i64], cells: &mut [u32])
    requires { All (pair_conditions (length cells.old) numbers.now) }
    ensures { cells.new ≡ pairs_written numbers.now cells.old }
{
    for pair in numbers.chunks_exact(2) {
        cells[pair[0] as usize] = pair[1] as u32;
    }
}

// Writes all the pairs, into the first `count` cells, or none: a host may lend more cells than the file has.
#[tactic(auto, using(definition::proofs::RefusalLaws::numbered, crate::proofs::PairLaws::all_good))]
pub fn write_all(numbers: &[i64], count: usize, cells: &mut [u32]) -> Result<(), Refusal>
    requires { count ≤ length cells.old }
    ensures value { refusal_in result ≡ judge (pairs_conditions count numbers.now) }
    ensures cells_after { cells.new ≡ unless_refused (refusal_in result) (pairs_written numbers.now cells.old) cells.old }
{
    check_numbers(numbers, count)?;
    write_pairs(numbers, cells);
    Ok(())
}
