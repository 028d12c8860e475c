// Runs the cases on standard input through the compiled functions of `floats`, and compares each result with the case's own.
// A case is a line of eight hexadecimal numbers: the opcode, three cells of the first operand, three of the second, the result. A rounding builtin has its
// number and 80 for an opcode.
// tools/float_vectors.py writes them, from a model of its own.
#![tactic(auto)]

use functions::ops;
use std::io;
use std::io::{BufReader, BufWriter, Read, Write};
use vectors::{Counts, MOST_LINES, number};

// A case with the end of its line. What ends the line isn't looked at.
const RECORD: usize = 66;

const ROUNDINGS: u16 = 128;

#[derive(Clone, Copy)]
struct Case {
    op: u16,
    a: [u32; 3],
    b: [u32; 3],
    wanted: u32,
}

impl Case {
    fn of(record: &[u8; RECORD]) -> Case {
        Case {
            op: (number(record, 0, 2) % 65536) as u16,
            a: [
                number(record, 3, 8),
                number(record, 12, 8),
                number(record, 21, 8),
            ],
            b: [
                number(record, 30, 8),
                number(record, 39, 8),
                number(record, 48, 8),
            ],
            wanted: number(record, 57, 8),
        }
    }

    // Each function by opcode gives 0 for the opcodes of the others. NotV is in none of them.
    fn result(&self) -> u32 {
        let op = self.op;
        let [a, _, _] = self.a;
        let [b, _, _] = self.b;
        if op == ops::NOT_V {
            return floats::not_v(self.a);
        }
        if op >= ROUNDINGS {
            return floats::rounding::rounding((op - ROUNDINGS) as u32, a);
        }
        let scalar = floats::float_op(op, a, b)
            | floats::component_op(op, a, b)
            | floats::value_op(op, a, b);
        scalar | floats::not_op(op, a) | floats::vectors_to_float_op(op, self.a, self.b)
    }
}

fn run_case<W: Write>(out: &mut W, record: &[u8; RECORD]) -> io::Result<bool> {
    let case = Case::of(record);
    let got = case.result();
    let same = got == case.wanted;
    if !same {
        write!(out, "{got:08x} is the result of ")?;
        out.write_all(record)?;
    }
    Ok(same)
}

// A last record that isn't whole is none.
fn run_cases<R: Read, W: Write>(input: &mut R, out: &mut W) -> io::Result<Counts> {
    let mut counts = Counts::default();
    let mut record = [0u8; RECORD];
    for _ in 0..MOST_LINES {
        if streams::read_full(input, &mut record)? < RECORD {
            break;
        }
        let same = run_case(out, &record)?;
        counts.count(same);
    }
    Ok(counts)
}

fn main(rt: HostRuntime) -> io::Result<()> {
    let mut input = BufReader::new(rt.alloc(), rt.stdin())?;
    let mut out = BufWriter::new(rt.alloc(), rt.stdout())?;
    let counts = run_cases(&mut input, &mut out)?;
    writeln!(out, "{counts}")?;
    out.flush()
}
