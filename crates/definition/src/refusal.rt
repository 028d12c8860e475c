// Why an operation is refused: a row of document 01's table, or of a request of 02.
ghost use Rattle.std.specs.Prelude.{◌≡◌};
ghost use Rattle.definition.specs.Refusals.{number};

use std::error::Error;
use std::fmt;

// Each stands for its number.
#[derive(Clone, Copy, Debug, PartialEq, Eq)]
pub enum Refusal {
    FileLength = 1,
    Version = 2,
    CheckNumber = 3,
    Lump = 4,
    BuiltinNumber = 5,
    Name = 6,
    Opcode = 7,
    DefinitionType = 8,
    FieldSaveFlag = 9,
    CellCount = 10,
    EntityCellCount = 11,
    LentTooShort = 12,
    State = 13,
    Position = 14,
    Address = 15,
    Type = 16,
    NegativeValue = 17,
    UnusedOperand = 18,
    NullFunction = 19,
    NoFunction = 20,
    EntersBuiltin = 21,
    CallStackOverflow = 22,
    LocalStackOverflow = 23,
    ArgumentCount = 24,
    CallStackUnderflow = 25,
    LocalStackUnderflow = 26,
    NotHandedOver = 27,
    Limit = 28,
    TargetDepth = 29,
    Entity = 30,
    Field = 31,
    Pointer = 32,
    StringNumber = 33,
    OutputTooShort = 34,
    LoadFile = 35,
    Settings = 36,
    UnpackBufferTooShort = 37,
}

impl Refusal {
    // "A refusal gives its number"
    pub fn number(self) -> u8
        ensures { result ≡ number self }
    {
        self as u8
    }
}

impl fmt::Display for Refusal {
    fn fmt<W: fmt::Write>(&self, f: &mut fmt::Formatter<W>) -> fmt::Result {
        f.write_str(match self {
            Refusal::FileLength => "the file is shorter than 60 bytes or longer than 1,048,576",
            Refusal::Version => "the version isn't 6",
            Refusal::CheckNumber => "the check number isn't the one that is set",
            Refusal::Lump =>
                "a lump has a negative offset or count, or ends past the end of the file",
            Refusal::BuiltinNumber =>
                "a function's first statement is negative and names no builtin",
            Refusal::Name => "a name is outside the strings",
            Refusal::Opcode => "the opcode isn't 0 to 65",
            Refusal::DefinitionType => "a definition's type is over 7",
            Refusal::FieldSaveFlag => "a field definition has the save flag",
            Refusal::CellCount => "there are fewer than 64 cells or more than 32,768",
            Refusal::EntityCellCount => "there are fewer than 105 cells per entity",
            Refusal::LentTooShort => "what is lent is too short",
            Refusal::State => "the file, what is lent and the state do not belong together",
            Refusal::Position => "there is no statement at the position",
            Refusal::Address => "a cell number is negative or not below the count of cells",
            Refusal::Type => "a definition has another type",
            Refusal::NegativeValue => "a negative number is read or moved",
            Refusal::UnusedOperand => "an unused operand isn't 0",
            Refusal::NullFunction => "function 0 is called",
            Refusal::NoFunction => "there is no function with that number",
            Refusal::EntersBuiltin => "the function that is entered is a builtin",
            Refusal::CallStackOverflow => "the call depth is the greatest that is set",
            Refusal::LocalStackOverflow =>
                "more cells would be saved than the greatest saved count that is set",
            Refusal::ArgumentCount => "the argument count isn't 0 to 8",
            Refusal::CallStackUnderflow => "there is nothing to return from",
            Refusal::LocalStackUnderflow => "fewer cells are saved than the function has locals",
            Refusal::NotHandedOver => "the statement would not be handed over",
            Refusal::Limit => "the limit isn't 1 to the greatest run limit that is set",
            Refusal::TargetDepth => "the target depth is negative or not below the depth",
            Refusal::Entity => "the entity isn't below the number of entities",
            Refusal::Field => "a field's cell isn't below the cells per entity",
            Refusal::Pointer => "a pointer points to no entity's field",
            Refusal::StringNumber => "a string number is outside the strings",
            Refusal::OutputTooShort => "the output buffer is shorter than the file to be written",
            Refusal::LoadFile =>
                "the seed is 0, or the number of drawn statements isn't 1 to 1,000",
            Refusal::Settings => "a setting is out of range",
            Refusal::UnpackBufferTooShort =>
                "the unpack buffer is shorter than four numbers a statement",
        })
    }
}

impl Error for Refusal {}
