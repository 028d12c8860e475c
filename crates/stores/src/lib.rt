// Stores. A function here stands for the Rust's functions that its comment lists.
// Types are numbers and no enum: each contract holds for every number, whatever the file has there.
#![tactic(auto)]

ghost use Rattle.std.specs.Prelude.{◌≡◌, ◌≤◌, length};
ghost use Rattle.definition.specs.Statements.{stores_effect, stores_v_effect, reserved_cell};
ghost use Rattle.definition.specs.Refusals.{refusal_in};
ghost use Rattle.typed.specs.Typing.{typing};
ghost use Rattle.globals.specs.Effects.{after, effect_on};
ghost use Rattle.stores.specs.Refusals.{raw_refusal, store_v_refusal};

use definition::refusal::Refusal;
use typed::{FLOAT, Operands, STRING, Typing};

// op_store_f, op_store_s, op_store_ent, op_store_fld, op_store_fnc; t is the type of both cells.
#[tactic(auto, using(definition::proofs::RefusalLaws::numbered, crate::proofs::Stores::stores_is, globals::proofs::Statements::reach_move), unfolding(typed::specs::Checking::first, globals::specs::Effects::effect_on))]
pub fn op_stores(globals: Typing, cells: &mut [u32], t: u16, at: Operands) -> Result<(), Refusal>
    requires { globals.count ≤ length cells.old }
    ensures { after result cells.new ≡ effect_on (stores_effect t (typing globals.entry.defs.now globals.entry.count) at.a at.b at.c cells.old) cells.old }
{
    let natural = typed::must_be_natural(t) | (t == STRING);
    globals::check_unary(globals, cells, at.c, natural, t, at.a, t, at.b)?;
    cells[at.b] = cells[at.a];
    Ok(())
}

// An access as float, or by address alone.
#[tactic(auto, unfolding(crate::specs::Refusals::raw_refusal))]
fn check_raw(globals: Typing, raw: bool, cell: usize) -> Result<(), Refusal>
    ensures { refusal_in result ≡ raw_refusal (typing globals.entry.defs.now globals.entry.count) raw cell }
{
    if !raw {
        return globals.check_cell(FLOAT, cell);
    }
    if cell < globals.count {
        Ok(())
    } else {
        Err(Refusal::Address)
    }
}

fn reserved_cell(cell: usize) -> bool
    ensures { result ≡ reserved_cell cell }
{
    (1..=27).contains(&cell)
}

// Cell by cell, source before destination.
#[tactic(auto, using(definition::proofs::RefusalLaws::numbered, crate::proofs::Stores::copies_on, crate::proofs::Stores::copies_none, crate::proofs::Stores::raw_reach), unfolding(typed::specs::Checking::first))]
fn check_store_v(globals: Typing, at: Operands) -> Result<(), Refusal>
    ensures { refusal_in result ≡ store_v_refusal (typing globals.entry.defs.now globals.entry.count) at.a at.b at.c }
{
    globals::check_unused(at.c)?;
    let raw = reserved_cell(at.b);
    for i in 0..3 {
        check_raw(globals, raw, at.a + i)?;
        check_raw(globals, raw, at.b + i)?;
    }
    Ok(())
}

// One cell at a time: a cell that is written may be read after it.
#[tactic(auto, using(definition::proofs::RefusalLaws::numbered, crate::proofs::Stores::stores_v_judged, crate::proofs::Stores::stores_v_cells, crate::proofs::Stores::reach_store_v), unfolding(globals::specs::Effects::effect_on))]
pub fn op_store_v(globals: Typing, cells: &mut [u32], at: Operands) -> Result<(), Refusal>
    requires { globals.count ≤ length cells.old }
    ensures { after result cells.new ≡ effect_on (stores_v_effect (typing globals.entry.defs.now globals.entry.count) at.a at.b at.c cells.old) cells.old }
{
    check_store_v(globals, at)?;
    for i in 0..3 {
        cells[at.b + i] = cells[at.a + i];
    }
    Ok(())
}
