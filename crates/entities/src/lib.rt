// The fields of entities (document 02, R-3). A function here stands for the Rust's functions that its comment lists. All is checked before anything is
// written.
// Types are numbers and no enum: each contract holds for every number, whatever the file has there.
#![tactic(auto)]

ghost use Rattle.std.specs.Prelude.{◌≡◌, [], ◌+◌, ◌*◌, ◌/◌, ◌≤◌, ◌<◌, length, IfOk};
ghost use Rattle.definition.specs.Cells.{Typing as CellTyping};
ghost use Rattle.definition.specs.Checks.{judge, guard};
ghost use Rattle.definition.specs.File.{greatest_pointer};
ghost use Rattle.definition.specs.Refusals.{refusal_in, checked};
ghost use Rattle.definition.specs.Statements.{Entities, value_moved, loads_effect, addresses_effect, stores_p_effect};
ghost use Rattle.typed.specs.Typing.{typing};
ghost use Rattle.typed.specs.Checking.{Reaches};
ghost use Rattle.globals.specs.Effects.{after, effect_on};
ghost use Rattle.entities.specs.Lent.{entities_at};
ghost use Rattle.entities.specs.Checked.{operand_conditions, loaded_conditions, made_conditions, pointed_conditions};

use definition::GREATEST_POINTER;
use definition::refusal::Refusal;
use typed::{Operands, Typing};

// How many entities there are, and their fields: the field definitions and the cells of each entity. What a load has checked of them (13 and 11) holds of
// each table.
#[derive(Clone, Copy)]
pub struct EntityTable<'a> {
    pub number: usize,
    pub fields: Typing<'a>,
    // "up to 600 entities"
    pub ghost few: { number ≤ 600 },
    // cells per entity are neither under 105 nor negative
    pub ghost size_least: { 105 ≤ fields.count },
    pub ghost size_below: { fields.count < 2147483648 },
}

impl<'a> EntityTable<'a> {
    // The cell of an entity's field.
    #[tactic(auto, using(crate::proofs::Entities::offset_below))]
    fn place(self, entity: usize, field: usize) -> usize
        requires { (entity < self.number) × (field < self.fields.count) }
        ensures { result ≡ entity * self.entry.fields.count + field }
    {
        entity * self.fields.count + field
    }

    // The place of a field that is read: the entity, the field's cells, then the value are checked.
    #[tactic(auto, using(definition::proofs::RefusalLaws::numbered, definition::proofs::CheckLaws::judge_append, typed::proofs::Laws::field_reach, definition::proofs::StatementLaws::entity_cell, crate::proofs::Entities::reach_field), unfolding(definition::specs::Checks::judge))]
    fn loaded(self, entities: &[u32], t: u16, entity: usize, field: usize) -> Result<usize, Refusal>
        requires { self.number * self.fields.count ≤ length entities.now }
        ensures refused { refusal_in result ≡ judge (loaded_conditions t (typing self.entry.fields.defs.now self.entry.fields.count) (entities_at self.entry.number entities.now) entity field) }
        ensures found { IfOk result (λ place. (place ≡ entity * self.entry.fields.count + field) × Reaches t place (self.entry.number * self.entry.fields.count)) }
    {
        if self.number <= entity {
            return Err(Refusal::Entity);
        }
        self.fields.check_field(t, field)?;
        let place = self.place(entity, field);
        let natural = typed::must_be_natural(t) | (t == typed::STRING);
        if natural & (0x8000_0000 <= entities[place]) {
            return Err(Refusal::NegativeValue);
        }
        Ok(place)
    }

    // The pointer to a field, in bytes: World::ent_fld_addr_to_i32.
    #[tactic(auto, using(crate::proofs::Entities::offset_below), unfolding(definition::specs::Checks::guard, definition::specs::Checks::judge))]
    fn pointer_to(self, entity: usize, field: usize) -> Result<usize, Refusal>
        ensures made { checked result ≡ guard (made_conditions self.entry.number self.entry.fields.count entity field) ((entity * self.entry.fields.count + field) * 4) }
        ensures below { IfOk result (λ pointer. pointer ≤ greatest_pointer) }
    {
        if entity >= self.number {
            return Err(Refusal::Entity);
        }
        if field >= self.fields.count {
            return Err(Refusal::Field);
        }
        let pointer = self.place(entity, field) * 4;
        if pointer <= GREATEST_POINTER {
            Ok(pointer)
        } else {
            Err(Refusal::Pointer)
        }
    }

    // The place of a field of type t that is written through a pointer.
    #[tactic(auto, using(definition::proofs::RefusalLaws::numbered, definition::proofs::CheckLaws::judge_append, typed::proofs::Laws::field_reach), unfolding(definition::specs::Checks::judge))]
    fn pointed(self, t: u16, p: u32) -> Result<usize, Refusal>
        ensures refused { refusal_in result ≡ judge (pointed_conditions t (typing self.entry.fields.defs.now self.entry.fields.count) (entities_at self.entry.number []) p) }
        ensures found { IfOk result (λ place. (place ≡ p / 4) × Reaches t place (self.entry.number * self.entry.fields.count)) }
    {
        let place = p as usize / 4;
        let size = self.fields.count;
        if (0x8000_0000 <= p) | (p % 4 != 0) | (self.number <= place / size) {
            return Err(Refusal::Pointer);
        }
        self.fields.check_field(t, place % size)?;
        Ok(place)
    }
}

// The operands of a statement that names an entity and a field: both are read, and a value of type t is written.
#[inline(always)]
#[tactic(auto, using(definition::proofs::RefusalLaws::numbered, definition::proofs::CheckLaws::judge_append, typed::proofs::Laws::read_reach, globals::proofs::Statements::reach_move), unfolding(typed::specs::Checking::first))]
fn check_operands(globals: Typing, cells: &[u32], t: u16, at: Operands) -> Result<(), Refusal>
    requires { globals.count ≤ length cells.now }
    ensures refused { refusal_in result ≡ judge (operand_conditions (typing globals.entry.defs.now globals.entry.count) t at.a at.b at.c cells.now) }
    ensures below { IfOk result (λ _. (at.a < globals.entry.count) × (at.b < globals.entry.count) × Reaches t at.c globals.entry.count) }
{
    globals.check_read(cells, true, typed::ENTITY, at.a)?;
    globals.check_move(cells, true, typed::FIELD, at.b, t, at.c)
}

// A value of type t: three cells of a vector, else one. `copy_from_slice` of three takes three times as long.
#[tactic(auto, using(crate::proofs::Entities::vector_reach), unfolding(definition::specs::Statements::value_moved))]
fn move_value(t: u16, from: &[u32], i: usize, to: &mut [u32], j: usize)
    requires { Reaches t i (length from.now) × Reaches t j (length to.old) }
    ensures { to.new ≡ value_moved t from.now i to.old j }
{
    to[j] = from[i];
    if t == typed::VECTOR {
        to[j + 1] = from[i + 1];
        to[j + 2] = from[i + 2];
    }
}

// op_load_f, op_load_v, op_load_s, op_load_ent, op_load_fnc, and LoadFld, which the Rust hasn't; t is the type of the field and of the cell.
#[tactic(auto, using(definition::proofs::RefusalLaws::numbered, definition::proofs::CheckLaws::judge_append, typed::proofs::Laws::widen), unfolding(globals::specs::Effects::effect_on, definition::specs::Checks::judge, definition::specs::Statements::loads_effect))]
pub fn op_loads(
    globals: Typing,
    table: EntityTable,
    cells: &mut [u32],
    entities: &[u32],
    t: u16,
    at: Operands,
) -> Result<(), Refusal>
    requires { (globals.count ≤ length cells.old) × (table.number * table.fields.count ≤ length entities.now) }
    ensures { after result cells.new ≡ effect_on (loads_effect t (typing globals.entry.defs.now globals.entry.count) (typing table.entry.fields.defs.now table.entry.fields.count) (entities_at table.entry.number entities.now) at.a at.b at.c cells.old) cells.old }
{
    check_operands(globals, cells, t, at)?;
    let place = table.loaded(entities, t, cells[at.a] as usize, cells[at.b] as usize)?;
    move_value(t, entities, place, cells, at.c);
    Ok(())
}

// op_address
#[tactic(auto, using(definition::proofs::RefusalLaws::numbered, definition::proofs::CheckLaws::judge_append), unfolding(globals::specs::Effects::effect_on, definition::specs::Checks::judge, definition::specs::Checks::guard, definition::specs::Statements::addresses_effect))]
pub fn op_address(
    globals: Typing,
    table: EntityTable,
    cells: &mut [u32],
    at: Operands,
) -> Result<(), Refusal>
    requires { globals.count ≤ length cells.old }
    ensures { (h : CellTyping) (e : Entities) → h.count ≡ table.entry.fields.count → e.count ≡ table.entry.number → after result cells.new ≡ effect_on (addresses_effect (typing globals.entry.defs.now globals.entry.count) h e at.a at.b at.c cells.old) cells.old }
{
    check_operands(globals, cells, typed::POINTER, at)?;
    let pointer = table.pointer_to(cells[at.a] as usize, cells[at.b] as usize)?;
    cells[at.c] = pointer as u32;
    Ok(())
}

// op_storep_f, op_storep_v, op_storep_s, op_storep_ent, op_storep_fnc, and StorePFld, which the Rust hasn't; t is the type of the cell and of the field.
#[tactic(auto, using(definition::proofs::RefusalLaws::numbered, crate::proofs::Entities::stores_p_is, globals::proofs::Statements::reach_move, typed::proofs::Laws::neither, typed::proofs::Laws::widen), unfolding(globals::specs::Effects::effect_on, typed::specs::Checking::first, definition::specs::Checks::judge))]
pub fn op_stores_p(
    globals: Typing,
    table: EntityTable,
    cells: &[u32],
    entities: &mut [u32],
    t: u16,
    at: Operands,
) -> Result<(), Refusal>
    requires { (globals.count ≤ length cells.now) × (table.number * table.fields.count ≤ length entities.old) }
    ensures { after result entities.new ≡ effect_on (stores_p_effect t (typing globals.entry.defs.now globals.entry.count) (typing table.entry.fields.defs.now table.entry.fields.count) (entities_at table.entry.number entities.old) at.a at.b at.c cells.now) entities.old }
{
    let natural = typed::must_be_natural(t);
    globals::check_unary(globals, cells, at.c, natural, t, at.a, typed::POINTER, at.b)?;
    let place = table.pointed(t, cells[at.b])?;
    if (t == typed::STRING) & (0x8000_0000 <= cells[at.a]) {
        return Err(Refusal::NegativeValue);
    }
    move_value(t, cells, at.a, entities, place);
    Ok(())
}
