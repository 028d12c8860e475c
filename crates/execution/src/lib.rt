// Execution of a fetched statement, over typed cells and the statements that write them.
#![tactic(auto)]

ghost use Rattle.std.specs.Prelude.{◌≡◌, List, ℕ, ◌*◌, ◌≤◌, ◌<◌, ℤ, pos, ◌+ℤ◌, length, cond};
ghost use Rattle.std.specs.Bool.{beq};
ghost use Rattle.definition.specs.File.{contents_at};
ghost use Rattle.definition.specs.Floats.{is_zero, rounding_of};
ghost use Rattle.definition.specs.Cells.{signed, cell_of, Typing as Types};
ghost use Rattle.definition.specs.Statements.{Entities, branches_do, builtin_does, call_of, call_does, execute, does_at};
ghost use Rattle.definition.specs.Operations.{is_handed_over};
ghost use Rattle.functions.specs.Parts.{functions_in};
ghost use Rattle.typed.specs.Typing.{typing};
ghost use Rattle.entities.specs.Lent.{entities_at};
ghost use Rattle.globals.specs.Effects.{after, effect_on};
ghost use Rattle.execution.specs.declared.Executed.TheVariants.{Next};
ghost use Rattle.execution.specs.Shapes.{effect_as, string_effect, field_does};
ghost use Rattle.execution.specs.Execution.{operands_of, is_hosts, completed_as, does_of, called_does, callee_does, executed, execution, Usable, UsableFields};

use crate::shapes::{CellOp, FieldOp, Shape, StringOp};
use definition::refusal::Refusal;
use definition::{DEFINITION_SIZE, FUNCTION_SIZE, FileRecord, Handover, STATEMENT_SIZE, Statement};
use entities::EntityTable;
use floats::rounding;
use functions::{fetch, parts};
use typed::{Operands, Typing};

pub mod shapes;

// What a fetched statement does, if it isn't refused: it completes and the run goes on at a position, calls a function, returns from a cell on, or is handed
// over.
#[derive(Clone, Copy, Debug, PartialEq, Eq)]
pub enum Executed {
    Next(i64),
    Calls(usize),
    Returns(usize),
    HandedOver(Handover),
}

// A statement that writes cells. What the shapes say is matched on here and below, a function to an arm: a table of functions would have to hand them out.
#[tactic(auto, unfolding(crate::specs::Shapes::effect_as))]
fn write(
    globals: Typing,
    cells: &mut [u32],
    what: CellOp,
    op: u16,
    at: Operands,
) -> Result<(), Refusal>
    requires { globals.count ≤ length cells.old }
    ensures { after result cells.new ≡ effect_on (effect_as what op (typing globals.entry.defs.now globals.entry.count) at.a at.b at.c cells.old) cells.old }
{
    match what {
        CellOp::Values(t) => comparisons::op_values(globals, cells, op, t, at),
        CellOp::Vectors(ta, tb) => arithmetic::op_vectors(globals, cells, op, ta, tb, at),
        CellOp::VectorsToFloat => arithmetic::op_vectors_to_float(globals, cells, op, at),
        CellOp::Nots(t) => comparisons::op_nots(globals, cells, op, t, at),
        CellOp::NotV => comparisons::op_not_v(globals, cells, at),
        CellOp::Stores(t) => stores::op_stores(globals, cells, t, at),
        CellOp::StoreV => stores::op_store_v(globals, cells, at),
    }
}

// A statement that goes by the texts of strings (document 02, R-4). Inlined, as `field`, `branch` and `call` below: as calls they take their structs through
// memory, for which each uncommon statement of the second engine clears room, 20 instructions.
#[inline(always)]
#[tactic(auto, unfolding(crate::specs::Shapes::string_effect))]
fn string(
    globals: Typing,
    strings: &[u8],
    cells: &mut [u32],
    what: StringOp,
    at: Operands,
) -> Result<(), Refusal>
    requires { globals.count ≤ length cells.old }
    ensures { after result cells.new ≡ effect_on (string_effect what (typing globals.entry.defs.now globals.entry.count) strings.now at.a at.b at.c cells.old) cells.old }
{
    match what {
        StringOp::Compare(when) => strings::op_strings(globals, strings, cells, when, at),
        StringOp::Not => strings::op_not_s(globals, strings, cells, at),
    }
}

// A statement of entity fields (document 02, R-3).
#[inline(always)]
#[tactic(auto, using(crate::proofs::Transfers::writes_field))]
fn field(
    globals: Typing,
    table: EntityTable,
    cells: &mut [u32],
    entities: &mut [u32],
    what: FieldOp,
    at: Operands,
) -> Result<(), Refusal>
    requires cells_lent { globals.count ≤ length cells.old }
    requires fields_lent { table.number * table.fields.count ≤ length entities.old }
    ensures { (p : ℤ) → executed (completed_as p result) cells.new entities.new ≡ execution (field_does what (typing globals.entry.defs.now globals.entry.count) (typing table.entry.fields.defs.now table.entry.fields.count) p (entities_at table.entry.number entities.old) at.a at.b at.c cells.old) cells.old entities.old }
{
    match what {
        FieldOp::Loads(t) => entities::op_loads(globals, table, cells, entities, t, at),
        FieldOp::Address => entities::op_address(globals, table, cells, at),
        FieldOp::StoresP(t) => entities::op_stores_p(globals, table, cells, entities, t, at),
    }
}

// As `fetch::signed`, but by a comparison: where it is one instruction, the compiler turns a branch into a conditional move, and the next fetch waits for the float
// that is tested.
fn distance(by: u16) -> i64
    ensures { result ≡ signed by }
{
    if by < 32768 {
        by as i64
    } else {
        by as i64 - 65536
    }
}

// `fetch::jump`, by that distance.
fn far_from(k: usize, by: u16) -> i64
    requires { k < 2147483648 }
    ensures { result ≡ pos k +ℤ signed by }
{
    (k as i64) + distance(by)
}

// The position after a branch: If jumps where the float isn't zero, IfNot where it is.
pub fn branched(k: usize, when: bool, value: u32, by: u16) -> i64
    requires { k < 2147483648 }
    ensures { result ≡ pos k +ℤ cond (beq (is_zero value) when) (signed by) (pos 1) }
{
    if floats::is_zero(value) == when {
        far_from(k, by)
    } else {
        fetch::after(k)
    }
}

// If and IfNot.
#[inline(always)]
#[tactic(auto, using(crate::proofs::Transfers::branches_as), unfolding(definition::specs::Cells::access))]
fn branch(
    globals: Typing,
    cells: &[u32],
    k: usize,
    when: bool,
    a: usize,
    by: u16,
) -> Result<Executed, Refusal>
    requires { (globals.count ≤ length cells.now) × (k < 2147483648) }
    ensures { does_of result cells.now ≡ branches_do when (typing globals.entry.defs.now globals.entry.count) (pos k) a (signed by) cells.now }
{
    globals.check_access(typed::FLOAT, a)?;
    Ok(Executed::Next(branched(k, when, cells[a], by)))
}

// What a Call calls: a function that is entered, a builtin that the machine does itself (document 02, R-1), or one that is the host's.
#[derive(Clone, Copy)]
enum Callee {
    Function(usize),
    Rounding(u32),
    Host(u32),
}

// The function with a number.
#[tactic(auto, using(crate::proofs::Transfers::finds_callee))]
fn callee_of(functions: &[u8], value: u32) -> Result<Callee, Refusal>
    ensures { (g : Types) (p : ℤ) (cells : List ℕ) → callee_does result g p cells ≡ call_of (functions_in functions.now) g p value cells }
{
    if value == 0 {
        return Err(Refusal::NullFunction);
    }
    let Some(f) = functions::id_from_i32(value, functions.len() / FUNCTION_SIZE) else {
        return Err(Refusal::NoFunction);
    };
    let def = functions::get_def(functions, f);
    if !functions::builtin_known(def) {
        return Err(Refusal::BuiltinNumber);
    }
    if functions::is_builtin(def) {
        return Ok(builtin(functions::builtin_of(def)));
    }
    Ok(Callee::Function(f))
}

// Whichever number the file has there.
#[tactic(auto, using(crate::proofs::Transfers::does_builtin))]
fn builtin(n: u32) -> Callee
    ensures { (g : Types) (p : ℤ) (cells : List ℕ) → called_does result g p cells ≡ builtin_does (rounding_of n) n g p cells }
{
    if rounding::is_rounding(n) {
        Callee::Rounding(n)
    } else {
        Callee::Host(n)
    }
}

// What the Call finds whose operand names the cell a.
#[inline(always)]
#[tactic(auto, using(crate::proofs::Transfers::reads_callee))]
fn callee_at(globals: Typing, functions: &[u8], cells: &[u32], a: usize) -> Result<Callee, Refusal>
    requires { globals.count ≤ length cells.now }
    ensures { (p : ℤ) → callee_does result (typing globals.entry.defs.now globals.entry.count) p cells.now ≡ call_does (functions_in functions.now) (typing globals.entry.defs.now globals.entry.count) p a cells.now }
{
    globals.check_cell(typed::FUNCTION, a)?;
    callee_of(functions, cells[a])
}

// What is done by a statement that completes and goes on with the next.
fn next(k: usize) -> Executed
    requires { k < 2147483648 }
    ensures { result ≡ Next (pos k +ℤ pos 1) }
{
    Executed::Next(fetch::after(k))
}

// A Call, by what it calls.
#[inline(always)]
#[tactic(auto, using(crate::proofs::Transfers::calls_as))]
fn call(globals: Typing, cells: &mut [u32], k: usize, callee: Callee) -> Result<Executed, Refusal>
    requires { (globals.count ≤ length cells.old) × (k < 2147483648) }
    ensures { (entities : List ℕ) → executed result cells.new entities ≡ execution (called_does callee (typing globals.entry.defs.now globals.entry.count) (pos k) cells.old) cells.old entities }
{
    match callee {
        Callee::Function(f) => Ok(Executed::Calls(f)),
        Callee::Rounding(number) => {
            arithmetic::builtin_rounding(globals, cells, number)?;
            Ok(next(k))
        }
        Callee::Host(number) => Ok(Executed::HandedOver(Handover::Builtin(number))),
    }
}

// The cells that the operands of a statement name.
fn operands(s: Statement) -> Operands
    ensures { result ≡ operands_of s }
{
    Operands {
        a: fetch::cell_of(s.arg1),
        b: fetch::cell_of(s.arg2),
        c: fetch::cell_of(s.arg3),
    }
}

// The statement k, beside so many entities. The bytes and what the state records of them come apart, as in the C interface, and
// `Usable`, which each function that takes them asks for, is what relates them.
#[inline(always)]
#[tactic(auto, using(crate::proofs::ByShape::by_shape))]
pub fn execute(
    file: &[u8],
    recorded: FileRecord,
    number: usize,
    cells: &mut [u32],
    entities: &mut [u32],
    k: usize,
    s: Statement,
) -> Result<Executed, Refusal>
    requires usable { Usable (length file.now) recorded (length cells.old) }
    requires usable_fields { UsableFields recorded number (length entities.old) }
    requires k_bound { (k < 2147483648) × (s.opcode < 66) }
    ensures { executed result cells.new entities.new ≡ execution (execute (contents_at recorded file.now) (pos k) s (entities_at number entities.old) cells.old) cells.old entities.old }
{
    let globals = Typing {
        defs: parts::part(file, DEFINITION_SIZE, recorded.globaldefs),
        count: recorded.globals.count,
    };
    if shapes::is_floats(s.opcode) {
        arithmetic::op_floats(globals, cells, s.opcode, s.arg1, s.arg2, s.arg3)?;
        return Ok(next(k));
    }
    match shapes::shape_of(s.opcode) {
        Shape::Cells(what) => {
            write(globals, cells, what, s.opcode, operands(s))?;
            Ok(next(k))
        }
        Shape::Strings(what) => {
            let strings = parts::part(file, 1, recorded.strings);
            string(globals, strings, cells, what, operands(s))?;
            Ok(next(k))
        }
        Shape::Fields(what) => {
            let fields = Typing {
                defs: parts::part(file, DEFINITION_SIZE, recorded.fielddefs),
                count: recorded.entityfields,
            };
            let table = EntityTable { number, fields };
            field(globals, table, cells, entities, what, operands(s))?;
            Ok(next(k))
        }
        Shape::Branch(when) => branch(globals, cells, k, when, fetch::cell_of(s.arg1), s.arg2),
        Shape::Goto => Ok(Executed::Next(fetch::jump(k, s.arg1))),
        Shape::Call => {
            let functions = parts::part(file, FUNCTION_SIZE, recorded.functions);
            let callee = callee_at(globals, functions, cells, fetch::cell_of(s.arg1))?;
            call(globals, cells, k, callee)
        }
        Shape::Return => Ok(Executed::Returns(fetch::cell_of(s.arg1))),
        Shape::Host => Ok(Executed::HandedOver(Handover::Opcode(s.opcode as u32))),
    }
}

// Whether what a Call calls is the host's.
fn is_hosts(callee: Result<Callee, Refusal>) -> bool
    ensures { result ≡ is_hosts callee }
{
    matches!(callee, Ok(Callee::Host(_)))
}

// Whether a statement, with the cells as they are, would be handed over: only a Call and what is the host's can be.
#[tactic(auto, using(crate::proofs::Fetching::handed_over))]
pub fn hands_over(file: &[u8], recorded: FileRecord, cells: &[u32], s: Statement) -> bool
    requires usable { Usable (length file.now) recorded (length cells.now) }
    requires opcode_bound { s.opcode < 66 }
    ensures { (p : ℤ) (e : Entities) → result ≡ is_handed_over (execute (contents_at recorded file.now) p s e cells.now) }
{
    if !shapes::is_call(s.opcode) {
        return shapes::is_host(s.opcode);
    }
    let globals = Typing {
        defs: parts::part(file, DEFINITION_SIZE, recorded.globaldefs),
        count: recorded.globals.count,
    };
    let functions = parts::part(file, FUNCTION_SIZE, recorded.functions);
    is_hosts(callee_at(globals, functions, cells, fetch::cell_of(s.arg1)))
}

// What the statement at a position does; one that writes cells or entity cells has done so. Inlined, it and `execute`: a call for each statement takes some 50
// instructions.
#[inline(always)]
#[tactic(auto, using(crate::proofs::Fetching::by_fetch))]
pub fn does(
    file: &[u8],
    recorded: FileRecord,
    number: usize,
    cells: &mut [u32],
    entities: &mut [u32],
    pc: i64,
) -> Result<Executed, Refusal>
    requires usable { Usable (length file.now) recorded (length cells.old) }
    requires usable_fields { UsableFields recorded number (length entities.old) }
    ensures { executed result cells.new entities.new ≡ execution (does_at (contents_at recorded file.now) pc (entities_at number entities.old) cells.old) cells.old entities.old }
{
    let statements = parts::part(file, STATEMENT_SIZE, recorded.statements);
    let (k, s) = fetch::fetch(statements, pc)?;
    execute(file, recorded, number, cells, entities, k, s)
}
