// The show program: a program file on standard input, one line on standard output.
#![tactic(auto)]

use definition::{MOST_CELLS, SAVED_STORE};
use shown::LONGEST_INPUT;
use std::io;
use std::io::Write;
use text::LINE_ROOM;

// Arrays, since the most of each is fixed and the contracts say that there is room. A byte more is read, so that a longer file is refused for its length.
fn main(rt: HostRuntime) -> io::Result<()> {
    let mut file = [0u8; LONGEST_INPUT + 1];
    let mut cells = [0u32; MOST_CELLS];
    let mut store = [0u32; SAVED_STORE];
    let mut line = [0u8; LINE_ROOM];
    let n = streams::read_full(&mut rt.stdin(), &mut file)?;
    // Entities there are none, so that none is lent.
    let end = shown::show(&file[..n], &mut cells, &mut store, &mut [], &mut line);
    rt.stdout().write_all(&line[..end])
}
