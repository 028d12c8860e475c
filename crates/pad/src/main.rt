// The padding program (document 02, R-7): a program file on standard input, on standard output the same program with 64 cells at least, or a refusal.
#![tactic(auto)]

use padding::LONGEST;
use std::io;
use std::io::Write;

// Arrays, since the longest file is known and the contract says that there is room. A byte more is read, so that a longer file is refused for its length.
fn main(rt: HostRuntime) -> io::Result<()> {
    let mut file = [0u8; LONGEST + 1];
    let mut out = [0u8; LONGEST];
    let n = streams::read_full(&mut rt.stdin(), &mut file)?;
    let end = padding::pad(&file[..n], &mut out);
    rt.stdout().write_all(&out[..end])
}
