// The opcodes (ops.rs). They are numbers and no enum, since what takes an opcode promises something of every number.
ghost use Rattle.std.specs.Prelude.{◌≡◌, ltb};

use definition::OPCODE_COUNT;

pub const DONE: u16 = 0;

pub const MUL_F: u16 = 1;

pub const MUL_V: u16 = 2;

pub const MUL_FV: u16 = 3;

pub const MUL_VF: u16 = 4;

pub const DIV: u16 = 5;

pub const ADD_F: u16 = 6;

pub const ADD_V: u16 = 7;

pub const SUB_F: u16 = 8;

pub const SUB_V: u16 = 9;

pub const EQ_F: u16 = 10;

pub const EQ_V: u16 = 11;

pub const EQ_S: u16 = 12;

pub const EQ_ENT: u16 = 13;

pub const EQ_FNC: u16 = 14;

pub const NE_F: u16 = 15;

pub const NE_V: u16 = 16;

pub const NE_S: u16 = 17;

pub const NE_ENT: u16 = 18;

pub const NE_FNC: u16 = 19;

pub const LE: u16 = 20;

pub const GE: u16 = 21;

pub const LT: u16 = 22;

pub const GT: u16 = 23;

pub const LOAD_F: u16 = 24;

pub const LOAD_V: u16 = 25;

pub const LOAD_S: u16 = 26;

pub const LOAD_ENT: u16 = 27;

pub const LOAD_FLD: u16 = 28;

pub const LOAD_FNC: u16 = 29;

pub const ADDRESS: u16 = 30;

pub const STORE_F: u16 = 31;

pub const STORE_V: u16 = 32;

pub const STORE_S: u16 = 33;

pub const STORE_ENT: u16 = 34;

pub const STORE_FLD: u16 = 35;

pub const STORE_FNC: u16 = 36;

pub const STORE_PF: u16 = 37;

pub const STORE_PV: u16 = 38;

pub const STORE_PS: u16 = 39;

pub const STORE_PENT: u16 = 40;

pub const STORE_PFLD: u16 = 41;

pub const STORE_PFNC: u16 = 42;

pub const RETURN: u16 = 43;

pub const NOT_F: u16 = 44;

pub const NOT_V: u16 = 45;

pub const NOT_S: u16 = 46;

pub const NOT_ENT: u16 = 47;

pub const NOT_FNC: u16 = 48;

pub const IF: u16 = 49;

pub const IF_NOT: u16 = 50;

pub const CALL_0: u16 = 51;

pub const CALL_1: u16 = 52;

pub const CALL_2: u16 = 53;

pub const CALL_3: u16 = 54;

pub const CALL_4: u16 = 55;

pub const CALL_5: u16 = 56;

pub const CALL_6: u16 = 57;

pub const CALL_7: u16 = 58;

pub const CALL_8: u16 = 59;

pub const STATE: u16 = 60;

pub const GOTO: u16 = 61;

pub const AND: u16 = 62;

pub const OR: u16 = 63;

pub const BIT_AND: u16 = 64;

pub const BIT_OR: u16 = 65;

// Refusal 7 is for any other.
pub fn is_opcode(opcode: u16) -> bool
    ensures { result ≡ ltb opcode 66 }
{
    opcode < OPCODE_COUNT
}
