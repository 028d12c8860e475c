// The texts that programs print, as ASCII in a lent buffer. What each is is in specs/Text.antt, and that writers follow each other in specs/Output.antt.
#![tactic(auto)]

ghost use Rattle.std.specs.Prelude.{◌≡◌, List, [], ◌∷◌, ◌≤◌, length};
ghost use Rattle.definition.specs.Answers.{letters, outcome_word, outcome_detail};
ghost use Rattle.text.specs.Text.{comma, decimal, signed_decimal, hex8, further_fields, line_text, refused_line};
ghost use Rattle.text.specs.Output.{output, Room, at_front};
ghost use Rattle.text.specs.Writing.{at_place, Wrote};

use definition::{Handover, RunAnswer};

// A line of the show program has room in so many bytes.
pub const LINE_ROOM: usize = 160;

// All of the bytes, into a part of a buffer that is as long. `copy_from_slice` would call `memmove`, and the archives for C are to need no more than `memcpy` and
// `memset`.
fn copy(part: &mut [u8], xs: &[u8])
    requires { length part.old ≡ length xs.now }
    ensures { part.new ≡ xs.now }
{
    for (i, x) in xs.iter().enumerate() {
        part[i] = *x;
    }
}

// A lent buffer, and the place in it where the next byte is stored. A method asks for room for its whole text, stores it from the place on and leaves the other
// bytes. (`write!` doesn't say that it succeeds where there is room, so numbers are written by methods too.)
#[derive(Drop)]
pub struct Writer<'a> {
    pub buf: &'a mut [u8],
    pub at: usize,
}

impl Writer<'_> {
    #[tactic(auto, using(crate::specs::Writing::wrote), unfolding(crate::specs::Output::put))]
    pub fn write_byte(&mut self, x: u8)
        requires { Room (x ∷ []) (at_place self.old) }
        ensures { Wrote (x ∷ []) self.old self.new }
    {
        self.buf[self.at] = x;
        self.at += 1;
    }

    #[tactic(auto, using(crate::specs::Writing::wrote, crate::proofs::Copying::part_put))]
    pub fn write_bytes(&mut self, xs: &[u8])
        requires { Room xs.now (at_place self.old) }
        ensures { Wrote xs.now self.old self.new }
    {
        let end = self.at + xs.len();
        copy(&mut self.buf[self.at..end], xs);
        self.at = end;
    }

    #[tactic(auto, using(crate::proofs::Decimal::printed_decimal))]
    pub fn write_decimal(&mut self, n: u64)
        requires { Room (decimal n) (at_place self.old) }
        ensures { Wrote (decimal n) self.old self.new }
    {
        self.write_bytes(itoa::Buffer::new().format(n).as_bytes());
    }

    #[tactic(auto, using(crate::proofs::Decimal::printed_signed))]
    pub fn write_signed(&mut self, z: i64)
        requires { Room (signed_decimal z) (at_place self.old) }
        ensures { Wrote (signed_decimal z) self.old self.new }
    {
        self.write_bytes(itoa::Buffer::new().format(z).as_bytes());
    }

    #[tactic(auto, using(crate::proofs::Hexadecimal::encoded))]
    pub fn write_hex8(&mut self, n: u32)
        requires { Room (hex8 n) (at_place self.old) }
        ensures { Wrote (hex8 n) self.old self.new }
    {
        let mut digits = [0u8; 8];
        // It has room for eight digits, so nothing is refused.
        let _ = hex::encode_to_slice(n.to_be_bytes(), &mut digits);
        self.write_bytes(&digits);
    }

    pub fn write_word(&mut self, answer: RunAnswer)
        requires { Room (letters (outcome_word answer)) (at_place self.old) }
        ensures { Wrote (letters (outcome_word answer)) self.old self.new }
    {
        self.write_bytes(match answer {
            RunAnswer::Ended => b"ended",
            RunAnswer::Spent => b"spent",
            RunAnswer::Refused(_) => b"refused",
            RunAnswer::HandedOver(Handover::Builtin(_)) => b"builtin",
            RunAnswer::HandedOver(Handover::Opcode(_)) => b"opcode",
        });
    }

    // ---- the fields of the show program's line

    #[tactic(auto, using(crate::specs::Writing::wrote_first))]
    fn write_field(&mut self, n: u64)
        requires { Room (comma ∷ decimal n) (at_place self.old) }
        ensures { Wrote (comma ∷ decimal n) self.old self.new }
    {
        self.write_byte(b',');
        self.write_decimal(n);
    }

    #[tactic(auto, using(crate::specs::Writing::wrote_first))]
    fn write_cell_field(&mut self, n: u32)
        requires { Room (comma ∷ hex8 n) (at_place self.old) }
        ensures { Wrote (comma ∷ hex8 n) self.old self.new }
    {
        self.write_byte(b',');
        self.write_hex8(n);
    }

    fn write_cells(&mut self, c1: u32, c2: u32, c3: u32)
        requires { Room (further_fields (hex8 c1 ∷ hex8 c2 ∷ hex8 c3 ∷ [])) (at_place self.old) }
        ensures { Wrote (further_fields (hex8 c1 ∷ hex8 c2 ∷ hex8 c3 ∷ [])) self.old self.new }
    {
        self.write_cell_field(c1);
        self.write_cell_field(c2);
        self.write_cell_field(c3);
        self.write_byte(b'\n');
    }
}

pub fn outcome_detail(answer: RunAnswer) -> u32
    ensures { result ≡ outcome_detail answer }
{
    match answer {
        RunAnswer::Ended | RunAnswer::Spent => 0,
        RunAnswer::Refused(n) => u32::from(n),
        RunAnswer::HandedOver(Handover::Builtin(n) | Handover::Opcode(n)) => n,
    }
}

// What the line of a run says, an answer among it: the line has a word for each of the four.
#[derive(Clone, Copy)]
pub struct Line {
    pub answer: RunAnswer,
    pub count: u32,
    pub pc: i64,
    pub function: usize,
    pub depth: usize,
    pub saved: usize,
    pub c1: u32,
    pub c2: u32,
    pub c3: u32,
}

// From the front of the buffer. Whatever the numbers are, it has at most 141 bytes.
#[tactic(auto, using(crate::specs::Laws::decimal_10, crate::specs::Laws::decimal_20, crate::specs::Laws::signed_20, crate::specs::Laws::cells_28, crate::specs::Laws::word_7))]
pub fn show_line(buf: &mut [u8], line: Line) -> usize
    requires { 160 ≤ length buf.old }
    ensures result_after { output buf.new result ≡ at_front (line_text line) buf.old }
    ensures upper_bound { result ≤ 160 }
{
    let mut out = Writer { buf, at: 0 };
    out.write_word(line.answer);
    out.write_field(u64::from(outcome_detail(line.answer)));
    out.write_field(u64::from(line.count));
    out.write_byte(b',');
    out.write_signed(line.pc);
    out.write_field(line.function as u64);
    out.write_field(line.depth as u64);
    out.write_field(line.saved as u64);
    out.write_cells(line.c1, line.c2, line.c3);
    out.at
}

// The line of a refused load.
#[tactic(auto, using(crate::specs::Laws::decimal_10))]
pub fn refused_line(buf: &mut [u8], n: u8) -> usize
    requires { 160 ≤ length buf.old }
    ensures result_after { output buf.new result ≡ at_front (refused_line n) buf.old }
    ensures upper_bound { result ≤ 160 }
{
    let mut out = Writer { buf, at: 0 };
    out.write_bytes(b"refused");
    out.write_field(u64::from(n));
    out.write_byte(b'\n');
    out.at
}
