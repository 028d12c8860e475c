// Entry, leaving and Return, after check 13. None looks at an entity cell: each contract holds beside every list of them.
ghost use Rattle.std.specs.Prelude.{◌≡◌, true, List, ℕ, ◌+◌, ◌≤◌, ◌<◌, length, IsOk};
ghost use Rattle.definition.specs.Checks.{judge};
ghost use Rattle.definition.specs.Refusals.{refusal_in};
ghost use Rattle.definition.specs.Machine.{Program, function_of, present, arguments_of, copies_present, entry_conditions, enter, leave_conditions, left};
ghost use Rattle.definition.specs.Load.{program_of};
ghost use Rattle.functions.specs.Parts.{functions_in};
ghost use Rattle.progs.specs.Contexts.{config, outcome_of, after, return, bare, range_of, entered_context, left_context, Loaded, Lent, Kept};
ghost use Rattle.progs.specs.Numbers.{numbered, numbered_in, entry_of, entering, leaving_of, returning};

use crate::{ExecutionContext, copies};
use definition::refusal::Refusal;
use definition::{FUNCTION_SIZE, FunctionDef, MOST_ARGUMENTS, Settings, StackFrame};
use functions::parts;

// The local range of a function.
#[derive(Clone, Copy)]
pub struct Locals {
    pub start: usize,
    pub count: usize,
}

// What the context takes over of an entry.
#[derive(Clone, Copy)]
pub struct Entry {
    pub first: i64,
    pub locals: usize,
}

// What the context takes over of a Return: the local count of the function left.
#[derive(Clone, Copy)]
pub struct Leaving {
    pub locals: usize,
}

// The conditions of an entry into a function that is there. `count` is the file's count of cells, by which 15 refuses: more may be lent.
#[tactic(auto, unfolding(definition::specs::Machine::entry_conditions, definition::specs::Checks::judge))]
fn check_entry(
    def: FunctionDef,
    settings: Settings,
    depth: usize,
    held: usize,
    count: usize,
) -> Result<(), Refusal>
    requires { (held ≤ 2048) × (settings.saved ≤ 2048) }
    ensures refusal { (P : Program) (f : ℕ) → f < length P.functions → def ≡ function_of P f → refusal_in result ≡ judge (entry_conditions P f (bare (numbered settings depth held count))) }
    ensures room { IsOk result → (depth < settings.depth) × (held + def.locals ≤ settings.saved) × (def.argc ≤ 8) }
    ensures cells { IsOk result → (present def.start def.locals count ≡ true) × (copies_present count (arguments_of def) ≡ true) }
{
    let start = def.start as usize;
    let locals = def.locals as usize;
    let argc = def.argc as usize;
    if settings.depth <= depth {
        return Err(Refusal::CallStackOverflow);
    }
    // A negative count's bits are over any saved count.
    if settings.saved < held + locals {
        return Err(Refusal::LocalStackOverflow);
    }
    if !copies::in_range(start, locals, count) {
        return Err(Refusal::Address);
    }
    if MOST_ARGUMENTS < argc {
        return Err(Refusal::ArgumentCount);
    }
    if !copies::arguments_in_range(def.argsz, start, argc, count) {
        return Err(Refusal::Address);
    }
    if functions::is_builtin(def) {
        return Err(Refusal::EntersBuiltin);
    }
    Ok(())
}

// An entry into a function that is there, as far as cells go: saves the local range and copies the arguments.
#[inline(always)]
fn enter_found(
    def: FunctionDef,
    settings: Settings,
    depth: usize,
    held: usize,
    count: usize,
    cells: &mut [u32],
    store: &mut [u32],
) -> Result<Entry, Refusal>
    requires { (held ≤ 2048) × (settings.saved ≤ 2048) × (2048 ≤ length store.old) × (count ≤ length cells.old) }
    ensures { (P : Program) (f : ℕ) → f < length P.functions → def ≡ function_of P f → entry_of result cells.new store.new ≡ entering P f (numbered settings depth held count) cells.old store.old }
{
    check_entry(def, settings, depth, held, count)?;
    let start = def.start as usize;
    let locals = def.locals as usize;
    copies::move_cells(cells, store, start, held, locals);
    copies::copy_arguments(cells, def.argsz, start, def.argc as usize);
    Ok(Entry {
        first: def.first as i64,
        locals,
    })
}

// An entry as far as cells go, by the part of the file that has the functions. What else an entry does is to the context, which takes its numbers from here.
pub fn enter_cells(
    functions: &[u8],
    f: usize,
    settings: Settings,
    depth: usize,
    held: usize,
    count: usize,
    cells: &mut [u32],
    store: &mut [u32],
) -> Result<Entry, Refusal>
    requires { (held ≤ 2048) × (settings.saved ≤ 2048) × (2048 ≤ length store.old) × (count ≤ length cells.old) }
    ensures { (P : Program) → functions_in functions.now ≡ P.functions → entry_of result cells.new store.new ≡ entering P f (numbered settings depth held count) cells.old store.old }
{
    if functions.len() / FUNCTION_SIZE <= f {
        return Err(Refusal::NoFunction);
    }
    let def = functions::get_def(functions, f);
    enter_found(def, settings, depth, held, count, cells, store)
}

// The local range of a function that is there.
fn local_range(def: FunctionDef) -> Locals
    ensures { result ≡ range_of def }
{
    Locals {
        start: def.start as usize,
        count: def.locals as usize,
    }
}

// The same by the part of the file that has the functions. One that isn't there has no locals.
fn locals_of(functions: &[u8], f: usize) -> Locals
    ensures { (P : Program) → functions_in functions.now ≡ P.functions → result ≡ range_of (function_of P f) }
{
    if functions.len() / FUNCTION_SIZE <= f {
        return Locals { start: 0, count: 0 };
    }
    local_range(functions::get_def(functions, f))
}

// The conditions of leaving a function, whose local range is `locals`.
#[tactic(auto, unfolding(definition::specs::Machine::leave_conditions, definition::specs::Checks::judge))]
fn check_leaving(locals: Locals, depth: usize, held: usize, count: usize) -> Result<(), Refusal>
    ensures refusal { (P : Program) (f : ℕ) → locals ≡ range_of (function_of P f) → refusal_in result ≡ judge (leave_conditions P (bare (numbered_in f depth held count))) }
    ensures room { IsOk result → (0 < depth) × (locals.count ≤ held) × (present locals.start locals.count count ≡ true) }
{
    if depth == 0 {
        return Err(Refusal::CallStackUnderflow);
    }
    if held < locals.count {
        return Err(Refusal::LocalStackUnderflow);
    }
    if !copies::in_range(locals.start, locals.count, count) {
        return Err(Refusal::Address);
    }
    Ok(())
}

// A Return or Done of the three cells from a on, as far as cells go, of a function whose local range is `locals`: copies the three cells and restores the range.
#[inline(always)]
fn return_found(
    locals: Locals,
    depth: usize,
    held: usize,
    count: usize,
    a: usize,
    cells: &mut [u32],
    store: &[u32],
) -> Result<Leaving, Refusal>
    requires { (held ≤ 2048) × (2048 ≤ length store.now) × (64 ≤ count) × (count ≤ length cells.old) }
    ensures { (P : Program) (f : ℕ) → locals ≡ range_of (function_of P f) → leaving_of result cells.new ≡ returning P a (numbered_in f depth held count) cells.old store.now }
{
    if !copies::in_range(a, 3, count) {
        return Err(Refusal::Address);
    }
    check_leaving(locals, depth, held, count)?;
    copies::copy_cells(cells, a, 1, 3);
    let first = held - locals.count;
    copies::move_cells(store, cells, first, locals.start, locals.count);
    Ok(Leaving {
        locals: locals.count,
    })
}

// The same by the part of the file that has the functions.
pub fn return_cells(
    functions: &[u8],
    f: usize,
    depth: usize,
    held: usize,
    count: usize,
    a: usize,
    cells: &mut [u32],
    store: &[u32],
) -> Result<Leaving, Refusal>
    requires { (held ≤ 2048) × (2048 ≤ length store.now) × (64 ≤ count) × (count ≤ length cells.old) }
    ensures { (P : Program) → functions_in functions.now ≡ P.functions → leaving_of result cells.new ≡ returning P a (numbered_in f depth held count) cells.old store.now }
{
    let locals = locals_of(functions, f);
    return_found(locals, depth, held, count, a, cells, store)
}

impl ExecutionContext {
    // The record of a function that is there. That the bytes are those that the context records, which come apart as in the C interface, is asked by each method
    // that reads them.
    pub(crate) fn get_def(&self, file: &[u8], f: usize) -> FunctionDef
        requires loaded { Loaded file.now self.now.file }
        requires f_lt_count { f < self.now.file.functions.count }
        ensures { result ≡ function_of (program_of file.now) f }
    {
        functions::get_def(parts::part(file, FUNCTION_SIZE, self.file.functions), f)
    }

    // The local range of the current function; one that isn't there has no locals.
    pub(crate) fn locals(&self, file: &[u8]) -> Locals
        requires { Loaded file.now self.now.file }
        ensures { result ≡ range_of (function_of (program_of file.now) self.now.current_function) }
    {
        if self.file.functions.count <= self.current_function {
            return Locals { start: 0, count: 0 };
        }
        local_range(self.get_def(file, self.current_function))
    }

    // The context in function f, which is to go back to the position `back`.
    fn push_frame(&mut self, f: usize, first: i64, locals: usize, back: i64)
        requires { (self.old.depth < 31) × (self.old.saved + locals ≤ 2048) }
        ensures { self.new ≡ entered_context self.old f first locals back }
    {
        self.frames[self.depth] = StackFrame {
            instr_id: back,
            func_id: self.current_function,
        };
        self.depth += 1;
        self.saved += locals;
        self.current_function = f;
        self.pc = first;
    }

    // Enters function f, which is to go back to the position `back`.
    #[inline(always)]
    pub fn enter_function(
        &mut self,
        file: &[u8],
        f: usize,
        back: i64,
        cells: &mut [u32],
        store: &mut [u32],
    ) -> Result<(), Refusal>
        requires { Lent file.now self.old cells.old store.old }
        ensures outcome { (entities : List ℕ) → outcome_of result self.new cells.new store.new entities ≡ after (config self.old cells.old store.old entities) (enter (program_of file.now) f back) }
        ensures kept { Kept self.old self.new }
    {
        if self.file.functions.count <= f {
            return Err(Refusal::NoFunction);
        }
        let def = self.get_def(file, f);
        let settings = self.settings;
        let depth = self.depth;
        let held = self.saved;
        let count = self.file.globals.count;
        let entry = enter_found(def, settings, depth, held, count, cells, store)?;
        self.push_frame(f, entry.first, entry.locals, back);
        Ok(())
    }

    // The leaving of the current function, whose local range is `locals`.
    pub(crate) fn check_leaving(&self, locals: Locals) -> Result<(), Refusal>
        ensures refusal { (P : Program) → locals ≡ range_of (function_of P self.now.current_function) → refusal_in result ≡ judge (leave_conditions P (bare self.now)) }
        ensures room { IsOk result → (0 < self.now.depth) × (locals.count ≤ self.now.saved) × (present locals.start locals.count self.now.file.globals.count ≡ true) }
    {
        check_leaving(locals, self.depth, self.saved, self.file.globals.count)
    }

    // The context after the current function, with so many locals, is left: its frame becomes zeros again.
    pub(crate) fn pop_frame(&mut self, locals: usize)
        requires { (0 < self.old.depth) × ((self.old.depth ≤ 31) × (locals ≤ self.old.saved)) }
        ensures { self.new ≡ left_context self.old locals }
    {
        self.depth -= 1;
        let top = self.frames[self.depth];
        self.frames[self.depth] = StackFrame::default();
        self.saved -= locals;
        self.current_function = top.func_id;
        self.pc = top.instr_id;
    }

    // Leaves the current function: restores its locals, and the context is that after it.
    #[tactic(auto, using(crate::proofs::CopyLaws::present_of), unfolding(definition::specs::Machine::left))]
    pub(crate) fn leave_function(&mut self, locals: Locals, cells: &mut [u32], store: &[u32])
        requires depth_nonzero { (0 < self.old.depth) × (self.old.depth ≤ 31) }
        requires count_le_saved { (locals.count ≤ self.old.saved) × (self.old.saved ≤ length store.now) }
        requires cells_value { present locals.start locals.count (length cells.old) ≡ true }
        ensures context { self.new ≡ left_context self.old locals.count }
        ensures outcome { (P : Program) (entities : List ℕ) → locals ≡ range_of (function_of P self.old.current_function) → config self.new cells.new store.now entities ≡ left P (config self.old cells.old store.now entities) }
    {
        let first = self.saved - locals.count;
        copies::move_cells(store, cells, first, locals.start, locals.count);
        self.pop_frame(locals.count)
    }

    // Return and Done of the three cells from a on.
    #[inline(always)]
    pub fn op_return(
        &mut self,
        file: &[u8],
        a: usize,
        cells: &mut [u32],
        store: &[u32],
    ) -> Result<(), Refusal>
        requires { Lent file.now self.old cells.old store.now }
        ensures outcome { (entities : List ℕ) → outcome_of result self.new cells.new store.now entities ≡ after (config self.old cells.old store.now entities) (return (program_of file.now) a) }
        ensures kept { Kept self.old self.new }
    {
        let locals = self.locals(file);
        let depth = self.depth;
        let held = self.saved;
        let count = self.file.globals.count;
        let leaving = return_found(locals, depth, held, count, a, cells, store)?;
        self.pop_frame(leaving.locals);
        Ok(())
    }
}
