// From bytes to records: ops.rs, functions.rs and string_table.rs of the Rust. Here stand the functions of a file (functions.rs); every number is
// kept as its unsigned bits, and a signed one is negative where its top bit is set.
#![tactic(auto)]

ghost use Rattle.std.specs.Prelude.{◌≡◌, true, ◌/◌, ◌<◌, length, get_or};
ghost use Rattle.definition.specs.File.{no_function, builtin_number, is_builtin, builtin_of, builtin_known};
ghost use Rattle.functions.specs.Answers.{function_id};
ghost use Rattle.functions.specs.Parts.{functions_in};

use definition::{FUNCTION_SIZE, FunctionDef};

pub mod fetch;
pub mod header;
pub mod ops;
pub mod parts;
pub mod reads;

// What a number names: one of so many functions of the file (functions.rs), or the offset of a string among so many bytes of strings (string_table.rs).
// A negative number's bits are above every count.
#[tactic(auto, unfolding(crate::specs::Answers::function_id))]
pub fn id_from_i32(value: u32, count: usize) -> Option<usize>
    ensures { result ≡ function_id value count }
{
    let id = value as usize;
    if id < count { Some(id) } else { None }
}

// The record of a function of the file. Whether there is one is `id_from_i32`'s to say.
#[tactic(auto, using(crate::specs::PartLaws::record_ends))]
pub fn get_def(functions: &[u8], id: usize) -> FunctionDef
    requires { id < length functions.now / 36 }
    ensures { result ≡ get_or (functions_in functions.now) id no_function }
{
    reads::read_function(functions, FUNCTION_SIZE * id)
}

// The numbers of the builtins (functions.rs, BuiltinFunctionId).
#[tactic(auto, unfolding(definition::specs::File::builtin_number))]
pub fn builtin_number(n: u32) -> bool
    ensures { result ≡ builtin_number n }
{
    matches!(
        n,
        1..=4 | 6..=32 | 34..=38 | 40..=41 | 43..=49 | 51..=59 | 67..=70 | 72..=78
    )
}

pub fn is_builtin(def: FunctionDef) -> bool
    ensures { result ≡ is_builtin def }
{
    2147483648 <= def.first
}

// The number of a builtin, which its first statement has with a minus: whichever the file has there, so that it is no enum.
pub fn builtin_of(def: FunctionDef) -> u32
    requires { is_builtin def ≡ true }
    ensures { result ≡ builtin_of def }
{
    def.first.wrapping_neg()
}

// Refusal 5 is for a builtin that isn't known.
pub fn builtin_known(def: FunctionDef) -> bool
    ensures { result ≡ builtin_known def }
{
    if is_builtin(def) {
        builtin_number(builtin_of(def))
    } else {
        true
    }
}
