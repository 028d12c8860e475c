// The records of a file, each along its row of document 01's table.
ghost use Rattle.std.specs.Prelude.{◌≡◌, true, ℕ, [], ◌∷◌, List, length};
ghost use Rattle.std.proofs.Common.{lit≤};
ghost use Rattle.definition.specs.Checks.{Conditions, judge};
ghost use Rattle.definition.specs.Refusals.{refusal_in};
ghost use Rattle.definition.specs.File.{lump_fits, lumps_fit, contents_at};
ghost use Rattle.definition.specs.Load.{named, function_conditions, statement_conditions, type_known, globaldef_conditions, fielddef_conditions, each, record_conditions};
ghost use Rattle.functions.specs.Parts.{part_of, records_of};
ghost use Rattle.loader.specs.Records.{read_fielddef, fielddef_local};

use crate::otherwise;
use definition::refusal::Refusal;
use definition::{
    DEFINITION_SIZE, Definition, FileRecord, FunctionDef, GREATEST_TYPE, Lump, SAVE_FLAG, Statement,
};
use functions::reads::FromBytes;
use functions::{ops, parts};

// A record whose row a load checks, beside so many bytes of strings.
pub trait Record: FromBytes {
    ghost conditions: { ℕ → Self → Conditions };

    fn check(self, strings: usize) -> Result<(), Refusal>
        ensures { refusal_in result ≡ judge (conditions strings self) };
}

// A field's definition: the numbers of a global's, and another row.
#[derive(Clone, Copy)]
pub struct Fielddef {
    pub definition: Definition,
}

impl FromBytes for Fielddef {
    const SIZE: usize = DEFINITION_SIZE;

    ghost SIZE = { 8 };

    ghost read_at = { read_fielddef };

    ghost sized = { (lit≤ tt, lit≤ tt) };

    ghost local = { fielddef_local };

    fn read(file: &[u8], at: usize) -> Fielddef {
        Fielddef {
            definition: Definition::read(file, at),
        }
    }
}

#[tactic(auto, unfolding(definition::specs::Checks::judge, functions::specs::Answers::function_id))]
fn check_name(strings: usize, name: u32) -> Result<(), Refusal>
    ensures { refusal_in result ≡ judge (named strings name ∷ []) }
{
    match functions::id_from_i32(name, strings) {
        Some(_) => Ok(()),
        None => Err(Refusal::Name),
    }
}

fn check_type(def: Definition) -> Result<(), Refusal>
    ensures { refusal_in result ≡ judge (type_known def ∷ []) }
{
    otherwise(
        def.kind % SAVE_FLAG <= GREATEST_TYPE,
        Refusal::DefinitionType,
    )
}

#[tactic(auto, using(definition::proofs::RefusalLaws::numbered), unfolding(definition::specs::Checks::judge))]
impl Record for FunctionDef {
    ghost conditions = { function_conditions };

    fn check(self, strings: usize) -> Result<(), Refusal> {
        otherwise(functions::builtin_known(self), Refusal::BuiltinNumber)?;
        check_name(strings, self.name)?;
        check_name(strings, self.srcfile)
    }
}

#[tactic(auto, using(definition::proofs::RefusalLaws::numbered), unfolding(definition::specs::Checks::judge))]
impl Record for Statement {
    ghost conditions = { λ _ statement. statement_conditions statement };

    fn check(self, _strings: usize) -> Result<(), Refusal> {
        otherwise(ops::is_opcode(self.opcode), Refusal::Opcode)
    }
}

#[tactic(auto, using(definition::proofs::RefusalLaws::numbered), unfolding(definition::specs::Checks::judge))]
impl Record for Definition {
    ghost conditions = { globaldef_conditions };

    fn check(self, strings: usize) -> Result<(), Refusal> {
        check_name(strings, self.name)?;
        check_type(self)
    }
}

#[tactic(auto, using(definition::proofs::RefusalLaws::numbered), unfolding(definition::specs::Checks::judge))]
impl Record for Fielddef {
    ghost conditions = { λ strings field. fielddef_conditions strings field.definition };

    fn check(self, strings: usize) -> Result<(), Refusal> {
        check_name(strings, self.definition.name)?;
        otherwise(self.definition.kind < SAVE_FLAG, Refusal::FieldSaveFlag)?;
        check_type(self.definition)
    }
}

fn check_part<R: Record>(part: &[u8], strings: usize) -> Result<(), Refusal>
    ensures { refusal_in result ≡ judge (each (R.conditions strings) (records_of R.read_at R.SIZE part.now)) }
{
    for bytes in part.chunks_exact(R::SIZE) {
        R::read(bytes, 0).check(strings)?;
    }
    Ok(())
}

fn check_lump<R: Record>(file: &[u8], lump: Lump, strings: usize) -> Result<(), Refusal>
    requires { lump_fits R.SIZE (length file.now) lump ≡ true }
    ensures { refusal_in result ≡ judge (each (R.conditions strings) (records_of R.read_at R.SIZE (part_of R.SIZE lump file.now))) }
{
    check_part::<R>(parts::part(file, R::SIZE, lump), strings)
}

// The rows "functions" to "global, then field definitions".
#[tactic(auto, using(definition::proofs::RefusalLaws::numbered, definition::proofs::CheckLaws::judge_append, crate::proofs::Rows::by_parts))]
pub fn check_records(file: &[u8], r: FileRecord) -> Result<(), Refusal>
    requires { (lumps_fit r ≡ true) × (r.length ≡ length file.now) }
    ensures { refusal_in result ≡ judge (record_conditions r.strings.count (contents_at r file.now)) }
{
    let strings = r.strings.count;
    check_lump::<FunctionDef>(file, r.functions, strings)?;
    check_lump::<Statement>(file, r.statements, strings)?;
    check_lump::<Definition>(file, r.globaldefs, strings)?;
    check_lump::<Fielddef>(file, r.fielddefs, strings)
}
