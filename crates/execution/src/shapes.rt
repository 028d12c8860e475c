// Opcodes by the shape of what they do. They are numbers: each contract holds for every number, and that of no opcode has a shape too.
ghost use Rattle.std.specs.Prelude.{◌≡◌, false, ◌<◌};
ghost use Rattle.definition.specs.Statements.{shape_of};
ghost use Rattle.execution.specs.Shapes.{is_floats, is_call, is_host, shape_as};

use functions::ops;
use typed::{ENTITY, FIELD, FLOAT, FUNCTION, STRING, VECTOR};

// The shapes that write cells, with the types of their operands where these differ. That of two floats to a float isn't here: it is told by one bit.
#[derive(Clone, Copy)]
pub enum CellOp {
    Values(u16),
    Vectors(u16, u16),
    VectorsToFloat,
    Nots(u16),
    NotV,
    Stores(u16),
    StoreV,
}

// The statements that go by the texts of strings (document 02, R-4), and no Option, since neither is the want of the other: EqS is the comparison that gives 1.0 where they are the same.
#[derive(Clone, Copy)]
pub enum StringOp {
    Compare(bool),
    Not,
}

// The statements of entity fields (document 02, R-3), with the type of what is moved.
#[derive(Clone, Copy)]
pub enum FieldOp {
    Loads(u16),
    Address,
    StoresP(u16),
}

// IfNot is the branch that jumps when the float is zero.
#[derive(Clone, Copy)]
pub enum Shape {
    Cells(CellOp),
    Strings(StringOp),
    Fields(FieldOp),
    Branch(bool),
    Goto,
    Call,
    Return,
    Host,
}

// Bit k is that of opcode k: whether it makes a float of two floats.
const FLOATS: u64 = 0xc000_0000_00f0_8562;

// The commonest shape, by a test of one bit: a jump by opcode costs twice as much, and the operation needs one of its own. A load lets no opcode through that isn't
// below 66, and so this and the next two ask for no other.
#[tactic(auto, using(crate::proofs::Opcodes::bit_and_is, crate::proofs::Opcodes::other_bit_is))]
pub fn is_floats(op: u16) -> bool
    requires { op < 66 }
    ensures { result ≡ is_floats (shape_of op) }
{
    if op == ops::BIT_AND {
        return true;
    }
    (FLOATS >> (op % 64)) % 2 == 1
}

#[tactic(auto, using(crate::proofs::Opcodes::call_number_is))]
pub fn is_call(op: u16) -> bool
    requires { op < 66 }
    ensures { result ≡ is_call (shape_of op) }
{
    (ops::CALL_0 <= op) & (op <= ops::CALL_8)
}

#[tactic(auto, using(crate::proofs::Opcodes::host_number_is))]
pub fn is_host(op: u16) -> bool
    requires { op < 66 }
    ensures { result ≡ is_host (shape_of op) }
{
    op == ops::STATE
}

// The shape of an opcode before the Stores. One number to an arm: the prover reads consecutive numbers in one arm as ranges.
#[tactic(auto, unfolding(definition::specs::Statements::opcodes, definition::specs::Statements::shape_of, floats::specs::Opcodes::value_op, floats::specs::Opcodes::component_op, floats::specs::Opcodes::vectors_to_float_op, floats::specs::Opcodes::not_op))]
fn shape_before_stores(op: u16) -> Shape
    requires { (op < 31) × (is_floats (shape_of op) ≡ false) }
    ensures { shape_as result op ≡ shape_of op }
{
    match op {
        ops::DONE => Shape::Return,
        ops::MUL_V => Shape::Cells(CellOp::VectorsToFloat),
        ops::MUL_FV => Shape::Cells(CellOp::Vectors(FLOAT, VECTOR)),
        ops::MUL_VF => Shape::Cells(CellOp::Vectors(VECTOR, FLOAT)),
        ops::ADD_V => Shape::Cells(CellOp::Vectors(VECTOR, VECTOR)),
        ops::SUB_V => Shape::Cells(CellOp::Vectors(VECTOR, VECTOR)),
        ops::EQ_V => Shape::Cells(CellOp::VectorsToFloat),
        ops::EQ_S => Shape::Strings(StringOp::Compare(true)),
        ops::EQ_ENT => Shape::Cells(CellOp::Values(ENTITY)),
        ops::EQ_FNC => Shape::Cells(CellOp::Values(FUNCTION)),
        ops::NE_V => Shape::Cells(CellOp::VectorsToFloat),
        ops::NE_S => Shape::Strings(StringOp::Compare(false)),
        ops::NE_ENT => Shape::Cells(CellOp::Values(ENTITY)),
        ops::NE_FNC => Shape::Cells(CellOp::Values(FUNCTION)),
        ops::LOAD_F => Shape::Fields(FieldOp::Loads(FLOAT)),
        ops::LOAD_V => Shape::Fields(FieldOp::Loads(VECTOR)),
        ops::LOAD_S => Shape::Fields(FieldOp::Loads(STRING)),
        ops::LOAD_ENT => Shape::Fields(FieldOp::Loads(ENTITY)),
        ops::LOAD_FLD => Shape::Fields(FieldOp::Loads(FIELD)),
        ops::LOAD_FNC => Shape::Fields(FieldOp::Loads(FUNCTION)),
        ops::ADDRESS => Shape::Fields(FieldOp::Address),
        _ => Shape::Host,
    }
}

// The shape of any opcode that doesn't make a float of two floats.
#[tactic(auto, unfolding(definition::specs::Statements::opcodes, definition::specs::Statements::shape_of, floats::specs::Opcodes::value_op, floats::specs::Opcodes::component_op, floats::specs::Opcodes::vectors_to_float_op, floats::specs::Opcodes::not_op))]
pub fn shape_of(op: u16) -> Shape
    requires { (op < 66) × (is_floats (shape_of op) ≡ false) }
    ensures { shape_as result op ≡ shape_of op }
{
    if (ops::CALL_0 <= op) & (op <= ops::CALL_8) {
        return Shape::Call;
    }
    if op < ops::STORE_F {
        return shape_before_stores(op);
    }
    match op {
        ops::STORE_F => Shape::Cells(CellOp::Stores(FLOAT)),
        ops::STORE_V => Shape::Cells(CellOp::StoreV),
        ops::STORE_S => Shape::Cells(CellOp::Stores(STRING)),
        ops::STORE_ENT => Shape::Cells(CellOp::Stores(ENTITY)),
        ops::STORE_FLD => Shape::Cells(CellOp::Stores(FIELD)),
        ops::STORE_FNC => Shape::Cells(CellOp::Stores(FUNCTION)),
        ops::STORE_PF => Shape::Fields(FieldOp::StoresP(FLOAT)),
        ops::STORE_PV => Shape::Fields(FieldOp::StoresP(VECTOR)),
        ops::STORE_PS => Shape::Fields(FieldOp::StoresP(STRING)),
        ops::STORE_PENT => Shape::Fields(FieldOp::StoresP(ENTITY)),
        ops::STORE_PFLD => Shape::Fields(FieldOp::StoresP(FIELD)),
        ops::STORE_PFNC => Shape::Fields(FieldOp::StoresP(FUNCTION)),
        ops::RETURN => Shape::Return,
        ops::NOT_F => Shape::Cells(CellOp::Nots(FLOAT)),
        ops::NOT_V => Shape::Cells(CellOp::NotV),
        ops::NOT_S => Shape::Strings(StringOp::Not),
        ops::NOT_ENT => Shape::Cells(CellOp::Nots(ENTITY)),
        ops::NOT_FNC => Shape::Cells(CellOp::Nots(FUNCTION)),
        ops::IF => Shape::Branch(false),
        ops::IF_NOT => Shape::Branch(true),
        ops::GOTO => Shape::Goto,
        _ => Shape::Host,
    }
}
