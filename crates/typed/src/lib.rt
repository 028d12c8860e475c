// Typed access to cells.
#![tactic(auto)]

ghost use Rattle.std.specs.Prelude.{◌≡◌, ◌≤◌, length};
ghost use Rattle.definition.specs.Checks.{judge};
ghost use Rattle.definition.specs.Refusals.{number, refusal_in};
ghost use Rattle.functions.specs.Parts.{definitions_in};
ghost use Rattle.definition.specs.Cells.{lookup, scalar, cell_access, access, must_be_natural, read_access, field_access};
ghost use Rattle.typed.specs.Typing.{typing, found, first_in, type_check};
ghost use Rattle.typed.specs.Checking.{one_access, each_refusal, three_refusal, move_refusal};

use definition::refusal::Refusal;
use definition::{DEFINITION_SIZE, SAVE_FLAG};
use functions::reads;

// The types of definitions and operands. Numbers and no enum: the file can give a definition any, and each is asked for.
pub const VOID: u16 = 0;

pub const STRING: u16 = 1;

pub const FLOAT: u16 = 2;

pub const VECTOR: u16 = 3;

pub const ENTITY: u16 = 4;

pub const FIELD: u16 = 5;

pub const FUNCTION: u16 = 6;

pub const POINTER: u16 = 7;

// The type of the first definition of a cell, void or not, one definition after the other.
#[inline(always)]
#[tactic(auto, using(crate::proofs::Lookup::first_of_one, crate::proofs::Lookup::first_none))]
fn first_type_of_few(defs: &[u8], wanted: u16) -> Option<u16>
    ensures { result ≡ first_in (definitions_in defs.now) wanted }
{
    for definition in defs.chunks_exact(DEFINITION_SIZE) {
        if reads::u16_at(definition, 2) == wanted {
            return Some(reads::u16_at(definition, 0) % SAVE_FLAG);
        }
    }
    None
}

// The type of the first definition of a cell, void or not. A turn of the loop looks at two definitions, so that the test for the end is made half as often;
// the first one of an odd number comes before them.
#[inline(always)]
#[tactic(auto, using(crate::proofs::Lookup::first_kept, crate::proofs::Lookup::first_passed, crate::proofs::Lookup::twos_left, crate::proofs::Lookup::first_none))]
fn first_type(defs: &[u8], wanted: u16) -> Option<u16>
    ensures { result ≡ first_in (definitions_in defs.now) wanted }
{
    let (odd, twos) = defs.split_at(defs.len() / DEFINITION_SIZE % 2 * DEFINITION_SIZE);
    let first = first_type_of_few(odd, wanted);
    if first.is_some() {
        return first;
    }
    for two in twos.chunks_exact(2 * DEFINITION_SIZE) {
        let first = first_type_of_few(two, wanted);
        if first.is_some() {
            return first;
        }
    }
    None
}

// The type of the first definition of a cell that isn't void, one definition after the other.
#[inline(always)]
#[tactic(auto, using(crate::proofs::Lookup::lookup_one, crate::proofs::Lookup::lookup_none))]
fn past_void_of_few(defs: &[u8], wanted: u16) -> Option<u16>
    ensures { result ≡ found (lookup (definitions_in defs.now) wanted) }
{
    for definition in defs.chunks_exact(DEFINITION_SIZE) {
        if reads::u16_at(definition, 2) == wanted {
            let kind = reads::u16_at(definition, 0) % SAVE_FLAG;
            if kind != VOID {
                return Some(kind);
            }
        }
    }
    None
}

// The type of the first definition of a cell that isn't void, two definitions a turn as above.
#[inline(always)]
#[tactic(auto, using(crate::proofs::Lookup::found_kept, crate::proofs::Lookup::found_passed, crate::proofs::Lookup::twos_left, crate::proofs::Lookup::lookup_none))]
fn first_past_void(defs: &[u8], wanted: u16) -> Option<u16>
    ensures { result ≡ found (lookup (definitions_in defs.now) wanted) }
{
    let (odd, twos) = defs.split_at(defs.len() / DEFINITION_SIZE % 2 * DEFINITION_SIZE);
    let bound = past_void_of_few(odd, wanted);
    if bound.is_some() {
        return bound;
    }
    for two in twos.chunks_exact(2 * DEFINITION_SIZE) {
        let bound = past_void_of_few(two, wanted);
        if bound.is_some() {
            return bound;
        }
    }
    None
}

// The same as a call, since cells whose first definition is void are seldom. The compiler makes more of a length that is known to be a multiple of a
// definition's.
#[inline(never)]
#[tactic(auto, using(crate::proofs::Lookup::whole_all))]
fn find_past_void(defs: &[u8], wanted: u16) -> Option<u16>
    ensures { result ≡ found (lookup (definitions_in defs.now) wanted) }
{
    let (whole, _) = defs.split_at(defs.len() / DEFINITION_SIZE * DEFINITION_SIZE);
    first_past_void(whole, wanted)
}

// The type of the first definition of a cell that isn't void. Whether a definition is void is asked after the search, of the one that was found, so that
// those of other cells cost no more for it.
#[inline(always)]
#[tactic(auto, using(crate::proofs::Lookup::first_binds, crate::proofs::Lookup::none_first, crate::proofs::Lookup::none_so_high))]
pub fn find(defs: &[u8], cell: usize) -> Option<u16>
    ensures { result ≡ found (lookup (definitions_in defs.now) cell) }
{
    // No `try_from`, which takes three instructions more.
    if cell > u16::MAX as usize {
        return None;
    }
    let wanted = cell as u16;
    let t = first_type(defs, wanted)?;
    if t != VOID {
        return Some(t);
    }
    find_past_void(defs, wanted)
}

#[tactic(auto, unfolding(definition::specs::Cells::scalar))]
fn scalar(t: u16) -> u16
    ensures { result ≡ scalar t }
{
    if t == VECTOR { FLOAT } else { t }
}

// The type check of a cell by global definitions, of an entity's cell by field definitions. Where there are none nothing is looked up. Not marked as
// inlined: marked, beside the search, a float statement with definitions takes up to two fifths more.
#[tactic(auto, using(crate::proofs::Lookup::type_of_none, crate::proofs::Lookup::type_of_untyped, crate::proofs::Lookup::type_of_typed))]
pub fn type_check(defs: &[u8], cell: usize, want: u16) -> bool
    ensures { result ≡ type_check (definitions_in defs.now) want cell }
{
    defs.is_empty() || find(defs, cell).is_none_or(|t| scalar(t) == scalar(want))
}

// The same as a call, where there are definitions.
#[inline(never)]
#[tactic(auto, using(crate::proofs::Lookup::whole_all, crate::proofs::Lookup::type_of_untyped, crate::proofs::Lookup::type_of_typed))]
fn type_check_called(defs: &[u8], cell: usize, want: u16) -> bool
    ensures { result ≡ type_check (definitions_in defs.now) want cell }
{
    let (whole, _) = defs.split_at(defs.len() / DEFINITION_SIZE * DEFINITION_SIZE);
    find(whole, cell).is_none_or(|t| scalar(t) == scalar(want))
}

#[inline(always)]
#[tactic(auto, using(crate::proofs::Lookup::type_of_none))]
fn type_check_by_call(defs: &[u8], cell: usize, want: u16) -> bool
    ensures { result ≡ type_check (definitions_in defs.now) want cell }
{
    defs.is_empty() || type_check_called(defs, cell, want)
}

// A refusal of a check. A call that is seldom made, so that what passes is told by jumps alone: in place the compiler works out at each check what would refuse it.
#[cold]
#[inline(never)]
fn refused(refusal: Refusal) -> Result<(), Refusal>
    ensures { result ≡ Err refusal }
{
    Err(refusal)
}

// What types cells: the definitions, and how many cells there are. Of an entity's cells these are the field definitions, and the cells per entity.
#[derive(Clone, Copy)]
pub struct Typing<'a> {
    pub defs: &'a [u8],
    pub count: usize,
}

// The cells that the operands of a statement name.
#[derive(Clone, Copy)]
pub struct Operands {
    pub a: usize,
    pub b: usize,
    pub c: usize,
}

// Inlined: as calls the checks would take the struct through memory.
impl<'a> Typing<'a> {
    // An access of one cell; `above` refuses a cell that isn't below the count.
    #[inline(always)]
    #[tactic(auto, using(definition::proofs::RefusalLaws::numbered), unfolding(definition::specs::Checks::judge, crate::specs::Typing::type_check, crate::specs::Checking::one_access))]
    fn check_one(self, above: Refusal, want: u16, cell: usize) -> Result<(), Refusal>
        ensures { refusal_in result ≡ judge (one_access (number above) (typing self.entry.defs.now self.entry.count) want cell) }
    {
        if !type_check(self.defs, cell, want) {
            return refused(Refusal::Type);
        }
        if cell < self.count {
            Ok(())
        } else {
            refused(above)
        }
    }

    // The same by a call of the type check, for the cells of vectors and for `check_cell`: with each search in place statements of vectors and of strings are so long
    // that the compiler leaves less of them in the run's loop, and where there are no definitions they take a fifth more.
    #[inline(always)]
    #[tactic(auto, using(definition::proofs::RefusalLaws::numbered), unfolding(definition::specs::Checks::judge, crate::specs::Typing::type_check, crate::specs::Checking::one_access))]
    fn check_called(self, above: Refusal, want: u16, cell: usize) -> Result<(), Refusal>
        ensures { refusal_in result ≡ judge (one_access (number above) (typing self.entry.defs.now self.entry.count) want cell) }
    {
        if !type_check_by_call(self.defs, cell, want) {
            return refused(Refusal::Type);
        }
        if cell < self.count {
            Ok(())
        } else {
            refused(above)
        }
    }

    // An access of what has that type: a vector is three cells, each typed as float. The first cell isn't looked up as a vector too: what passes for a float
    // passes for a vector.
    #[inline(always)]
    #[tactic(auto, using(definition::proofs::RefusalLaws::numbered, crate::proofs::Laws::one_reach), unfolding(crate::specs::Checking::first, crate::specs::Checking::each_refusal))]
    fn check_each(self, above: Refusal, want: u16, cell: usize) -> Result<(), Refusal>
        ensures { refusal_in result ≡ each_refusal (number above) (typing self.entry.defs.now self.entry.count) want cell }
    {
        if want != VECTOR {
            return self.check_one(above, want, cell);
        }
        self.check_called(above, FLOAT, cell)?;
        self.check_called(above, FLOAT, cell + 1)?;
        self.check_called(above, FLOAT, cell + 2)
    }

    // A typed access of one cell.
    #[inline(always)]
    #[tactic(auto, unfolding(definition::specs::Cells::cell_access, crate::specs::Checking::one_access))]
    pub fn check_cell(self, want: u16, cell: usize) -> Result<(), Refusal>
        ensures { refusal_in result ≡ judge (cell_access (typing self.entry.defs.now self.entry.count) want cell) }
    {
        self.check_called(Refusal::Address, want, cell)
    }

    // A typed access.
    #[inline(always)]
    #[tactic(auto, using(crate::proofs::Laws::access_each))]
    pub fn check_access(self, want: u16, cell: usize) -> Result<(), Refusal>
        ensures { refusal_in result ≡ judge (access (typing self.entry.defs.now self.entry.count) want cell) }
    {
        self.check_each(Refusal::Address, want, cell)
    }

    // Three typed accesses in order.
    #[inline(always)]
    #[tactic(auto, using(definition::proofs::RefusalLaws::numbered), unfolding(crate::specs::Checking::first))]
    pub fn check_three(
        self,
        ta: u16,
        a: usize,
        tb: u16,
        b: usize,
        tc: u16,
        c: usize,
    ) -> Result<(), Refusal>
        ensures { refusal_in result ≡ three_refusal (typing self.entry.defs.now self.entry.count) ta a tb b tc c }
    {
        self.check_access(ta, a)?;
        self.check_access(tb, b)?;
        self.check_access(tc, c)
    }

    // A read of a value, refused if it is negative and must not be.
    #[inline(always)]
    #[tactic(auto, using(definition::proofs::RefusalLaws::numbered, crate::proofs::Laws::access_first, crate::proofs::Laws::read_firsts), unfolding(crate::specs::Checking::first, definition::specs::Checks::judge))]
    pub fn check_read(
        self,
        cells: &[u32],
        natural: bool,
        t: u16,
        cell: usize,
    ) -> Result<(), Refusal>
        requires { self.count ≤ length cells.now }
        ensures { refusal_in result ≡ judge (read_access (typing self.entry.defs.now self.entry.count) natural t cell cells.now) }
    {
        self.check_access(t, cell)?;
        if natural & (0x8000_0000 <= cells[cell]) {
            return Err(Refusal::NegativeValue);
        }
        Ok(())
    }

    // A read of a value, then an access of the cell that the statement writes.
    #[inline(always)]
    #[tactic(auto, using(definition::proofs::RefusalLaws::numbered), unfolding(crate::specs::Checking::first))]
    pub fn check_move(
        self,
        cells: &[u32],
        natural: bool,
        ta: u16,
        a: usize,
        tb: u16,
        b: usize,
    ) -> Result<(), Refusal>
        requires { self.count ≤ length cells.now }
        ensures { refusal_in result ≡ move_refusal (typing self.entry.defs.now self.entry.count) natural ta a tb b cells.now }
    {
        self.check_read(cells, natural, ta, a)?;
        self.check_access(tb, b)
    }

    // An access of a field, by field definitions.
    #[inline(always)]
    #[tactic(auto, using(crate::proofs::Laws::field_each))]
    pub fn check_field(self, want: u16, field: usize) -> Result<(), Refusal>
        ensures { refusal_in result ≡ judge (field_access (typing self.entry.defs.now self.entry.count) want field) }
    {
        self.check_each(Refusal::Field, want, field)
    }
}

// Entity and field numbers must not be negative when they are read.
pub fn must_be_natural(t: u16) -> bool
    ensures { result ≡ must_be_natural t }
{
    (t == ENTITY) | (t == FIELD)
}
