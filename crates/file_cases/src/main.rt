// Shows every file on standard input: for each line `NAME LENGTH HEX` it prints the name and what the show program prints for the file.
// The lines, and what must be printed, come from tests/model by tools/cases.py.
#![tactic(auto)]

use definition::{MOST_CELLS, SAVED_STORE};
use shown::LONGEST_INPUT;
use std::alloc::Global;
use std::io;
use std::io::{BufWriter, Read, Write};
use text::LINE_ROOM;
use vectors::lines::Lines;

// The most of the input that is read.
const MOST_INPUT: u64 = 524_288;

// A file has at most one byte more than show accepts. A line's texts are written into a lent buffer of a fixed length, by which the contracts say that there
// is room.
fn show_cases<W: Write>(alloc: Global, text: &[u8], out: &mut W) -> io::Result<()> {
    let mut file = vec![in alloc; 0u8; LONGEST_INPUT + 1]?;
    let mut cells = vec![in alloc; 0u32; MOST_CELLS]?;
    let mut store = vec![in alloc; 0u32; SAVED_STORE]?;
    let mut shown = [0u8; LINE_ROOM];
    for line in Lines::of(text) {
        let (name, length) = line.split_word();
        let n = length.file(&mut file);
        // Show has no entities, so that none is lent.
        let end = shown::show(&file[..n], &mut cells, &mut store, &mut [], &mut shown);
        out.write_all(name)?;
        out.write_all(&shown[..end])?;
    }
    Ok(())
}

// One function with the work as a parameter would take what these lines take.
fn main(rt: HostRuntime) -> io::Result<()> {
    let mut out = BufWriter::new(rt.alloc(), rt.stdout())?;
    let mut text = Vec::new(rt.alloc());
    rt.stdin().take(MOST_INPUT).read_to_end(&mut text)?;
    show_cases(rt.alloc(), &text, &mut out)?;
    out.flush()
}
