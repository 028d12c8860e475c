// Composes sentences at the ends of what their numbers can be, into display buffers of 0 to 130 bytes, each byte a `#`. For each it prints the
// length or the refusal, and then the whole buffer.
#![tactic(auto)]

use definition::{Handover, RunAnswer};
use std::io;
use std::io::{BufWriter, Write};

// The longest buffer that a case lends.
const ROOM: usize = 130;

fn compose<W: Write>(
    out: &mut W,
    display: &mut [u8],
    answer: RunAnswer,
    count: u32,
    position: i64,
    function: usize,
) -> io::Result<()> {
    match sentences::compose(display, answer, count, position, function) {
        Ok(length) => write!(out, "length {length} ")?,
        Err(refusal) => write!(out, "refused {} ", refusal.number())?,
    }
    out.write_all(display)?;
    out.write_all(b"\n")
}

fn main(rt: HostRuntime) -> io::Result<()> {
    let mut out = BufWriter::new(rt.alloc(), rt.stdout())?;
    let greatest_builtin = RunAnswer::HandedOver(Handover::Builtin(u32::MAX));
    let greatest_opcode = RunAnswer::HandedOver(Handover::Opcode(u32::MAX));
    for (lent, answer, count, position, function) in [
        (120, RunAnswer::Ended, 0, 0, 0),
        (121, RunAnswer::Spent, 99_999, i64::MAX, 9),
        (130, RunAnswer::Refused(255), u32::MAX, i64::MIN, 0),
        (120, greatest_opcode, 10, -1, usize::MAX),
        (120, greatest_builtin, u32::MAX, i64::MIN, usize::MAX),
        (130, greatest_builtin, u32::MAX, i64::MIN, usize::MAX),
        (119, greatest_builtin, u32::MAX, i64::MIN, usize::MAX),
        (119, RunAnswer::Ended, 0, 0, 0),
        (58, RunAnswer::Ended, 0, 0, 0),
        (0, RunAnswer::Ended, 0, 0, 0),
    ] {
        let mut display = [b'#'; ROOM];
        let lent = ROOM.min(lent);
        compose(
            &mut out,
            &mut display[..lent],
            answer,
            count,
            position,
            function,
        )?;
    }
    out.flush()
}
