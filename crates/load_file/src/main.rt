// The load file program: a seed and a number of statements on standard input, `2463534242 1000` and a line end, and their load file on standard output, or
// `refused,35` and a line end.
#![tactic(auto)]

ghost use Rattle.std.specs.Prelude.{◌≡◌, ◌≤◌, length};
ghost use Rattle.definition.specs.Written.{outcome_of};
ghost use Rattle.text.specs.Output.{output, at_front};
ghost use Rattle.load_file.specs.Numbers.{numbers_of};
ghost use Rattle.load_file.specs.Printed.{printed, made_for};

use definition::refusal::Refusal;
use load_files::LONGEST;
use numbers::LONGEST_LINE;
use std::io;
use std::io::Write;

mod numbers;

// The file that a line asks for. A line without two numbers asks for seed 0, which is refused.
fn make_file(line: &[u8], out: &mut [u8]) -> Result<usize, Refusal>
    ensures { outcome_of result out.new ≡ made_for (numbers_of line.now) out.old }
{
    let asked = numbers::read_numbers(line);
    load_files::make_file(asked.seed, i64::from(asked.n), out)
}

// What is printed stands at the front of `out`; the result is its length. `padding::pad` ends so too: a line or two, of another file.
fn print_file(line: &[u8], out: &mut [u8]) -> usize
    requires { 8405 ≤ length out.old }
    ensures result_after { output out.new result ≡ at_front (printed line.now) out.old }
    ensures upper_bound { result ≤ 8405 }
{
    match make_file(line, out) {
        Ok(n) => n,
        Err(refusal) => text::refused_line(out, refusal.number()),
    }
}

// Arrays, since the longest line and the longest file are known and the contracts say that there is room. A byte more is read, so that a longer line is refused.
fn main(rt: HostRuntime) -> io::Result<()> {
    let mut line = [0u8; LONGEST_LINE + 1];
    let mut out = [0u8; LONGEST];
    let n = streams::read_full(&mut rt.stdin(), &mut line)?;
    let end = print_file(&line[..n], &mut out);
    rt.stdout().write_all(&out[..end])
}
