// EqS, NeS and NotS: strings by their texts (document 02, R-4). A function here stands for the Rust's functions that its comment lists.
#![tactic(auto)]

ghost use Rattle.std.specs.Prelude.{◌≡◌, [], ◌||◌, eqb, ◌≤◌, ◌<◌, length, drop, IfOk};
ghost use Rattle.definition.specs.Checks.{judge};
ghost use Rattle.definition.specs.File.{byte_at};
ghost use Rattle.definition.specs.Refusals.{refusal_in};
ghost use Rattle.definition.specs.Strings.{text_of, same_text, text_access};
ghost use Rattle.definition.specs.Statements.{strings_effect, negates_s_effect, operand_given, string_access, same_strings};
ghost use Rattle.typed.specs.Typing.{typing};
ghost use Rattle.globals.specs.Effects.{after, effect_on};

use definition::refusal::Refusal;
use typed::{Operands, Typing};

// The end of the strings counts as a zero byte.
#[tactic(auto, unfolding(definition::specs::File::byte_at))]
fn byte_at(strings: &[u8], at: usize) -> u8
    ensures { result ≡ byte_at strings.now at }
{
    strings.get(at).copied().unwrap_or(0)
}

// The strings from a number on: nothing from their end on.
fn strings_from(strings: &[u8], number: u32) -> &[u8]
    ensures { result.now ≡ drop number strings.now }
{
    strings.get(number as usize..).unwrap_or(&[])
}

// Whether two string numbers have the same text: the bytes before a zero byte or the end. Equality of slices would go on behind the zero.
fn same_text(strings: &[u8], first: u32, second: u32) -> bool
    ensures { result ≡ same_text (text_of strings.now first) (text_of strings.now second) }
{
    let first = strings_from(strings, first);
    let second = strings_from(strings, second);
    first
        .iter()
        .take_while(|x| **x != 0)
        .eq(second.iter().take_while(|x| **x != 0))
}

// A negative operand is refused before any type is looked up.
#[tactic(auto, unfolding(definition::specs::Checks::judge))]
fn check_operand(cell: usize) -> Result<(), Refusal>
    ensures { refusal_in result ≡ judge (operand_given cell) }
{
    if cell < 32768 {
        Ok(())
    } else {
        Err(Refusal::Address)
    }
}

// A read of a string number: type and address, then 33.
#[tactic(auto, using(definition::proofs::RefusalLaws::numbered, definition::proofs::CheckLaws::judge_append, typed::proofs::Laws::cell_reach), unfolding(definition::specs::Strings::text_access, definition::specs::Cells::access, definition::specs::Checks::judge, functions::specs::Answers::function_id))]
fn check_string(globals: Typing, strings: &[u8], cells: &[u32], cell: usize) -> Result<(), Refusal>
    requires { globals.count ≤ length cells.now }
    ensures refused { refusal_in result ≡ judge (text_access (typing globals.entry.defs.now globals.entry.count) strings.now cell cells.now) }
    ensures below { IfOk result (λ _. cell < globals.entry.count) }
{
    globals.check_cell(typed::STRING, cell)?;
    match functions::id_from_i32(cells[cell], strings.len()) {
        Some(_) => Ok(()),
        None => Err(Refusal::StringNumber),
    }
}

// Equal operands are neither read nor checked further.
#[tactic(auto, using(definition::proofs::RefusalLaws::numbered, definition::proofs::CheckLaws::judge_append), unfolding(definition::specs::Checks::judge))]
fn check_pair(
    globals: Typing,
    strings: &[u8],
    cells: &[u32],
    a: usize,
    b: usize,
) -> Result<(), Refusal>
    requires { globals.count ≤ length cells.now }
    ensures refused { refusal_in result ≡ judge (string_access (typing globals.entry.defs.now globals.entry.count) strings.now a b cells.now) }
    ensures below { IfOk result (λ _. (a ≡ b → ⊥) → (a < globals.entry.count) × (b < globals.entry.count)) }
{
    if a == b {
        return Ok(());
    }
    check_string(globals, strings, cells, a)?;
    check_string(globals, strings, cells, b)
}

// Two numbers that are the same are not looked up.
fn same_strings(strings: &[u8], cells: &[u32], first: usize, second: usize) -> bool
    requires { (first ≡ second → ⊥) → (first < length cells.now) × (second < length cells.now) }
    ensures { result ≡ same_strings strings.now first second cells.now }
{
    first == second || same_text(strings, cells[first], cells[second])
}

// op_eq_s, op_ne_s; EqS gives 1.0 where the texts are the same, NeS where they are not.
#[tactic(auto, using(definition::proofs::RefusalLaws::numbered, definition::proofs::CheckLaws::judge_append, typed::proofs::Laws::cell_reach), unfolding(globals::specs::Effects::effect_on, definition::specs::Checks::judge, definition::specs::Cells::access, definition::specs::Statements::strings_effect))]
pub fn op_strings(
    globals: Typing,
    strings: &[u8],
    cells: &mut [u32],
    when: bool,
    at: Operands,
) -> Result<(), Refusal>
    requires { globals.count ≤ length cells.old }
    ensures { after result cells.new ≡ effect_on (strings_effect «when» (typing globals.entry.defs.now globals.entry.count) strings.now at.a at.b at.c cells.old) cells.old }
{
    check_operand(at.a)?;
    check_operand(at.b)?;
    check_pair(globals, strings, cells, at.a, at.b)?;
    globals.check_cell(typed::FLOAT, at.c)?;
    let same = same_strings(strings, cells, at.a, at.b);
    cells[at.c] = floats::flag(same == when);
    Ok(())
}

// Operand 0, string number 0 and an empty text are not.
#[tactic(auto, using(crate::proofs::Texts::empty_text))]
fn not_s(strings: &[u8], a: usize, number: u32) -> bool
    ensures { result ≡ (eqb a 0 || eqb number 0 || same_text (text_of strings.now number) []) }
{
    (a == 0) | (number == 0) | (byte_at(strings, number as usize) == 0)
}

#[tactic(auto, using(definition::proofs::RefusalLaws::numbered, definition::proofs::CheckLaws::judge_append, typed::proofs::Laws::cell_reach), unfolding(globals::specs::Effects::effect_on, definition::specs::Checks::judge, definition::specs::Cells::access, definition::specs::Statements::negates_s_effect))]
pub fn op_not_s(
    globals: Typing,
    strings: &[u8],
    cells: &mut [u32],
    at: Operands,
) -> Result<(), Refusal>
    requires { globals.count ≤ length cells.old }
    ensures { after result cells.new ≡ effect_on (negates_s_effect (typing globals.entry.defs.now globals.entry.count) strings.now at.a at.b at.c cells.old) cells.old }
{
    globals::check_unused(at.b)?;
    check_operand(at.a)?;
    check_string(globals, strings, cells, at.a)?;
    globals.check_cell(typed::FLOAT, at.c)?;
    cells[at.c] = floats::flag(not_s(strings, at.a, cells[at.a]));
    Ok(())
}
