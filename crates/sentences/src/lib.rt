// Outcome sentences (document 02, R-8): the outcome of a run as a line of words and numbers, in a lent display buffer.
#![tactic(auto)]

ghost use Rattle.std.specs.Prelude.{◌≡◌, ◌++◌};
ghost use Rattle.definition.specs.Answers.{outcome_word};
ghost use Rattle.definition.specs.Written.{outcome_of};
ghost use Rattle.text.specs.Text.{decimal};
ghost use Rattle.text.specs.Output.{Room};
ghost use Rattle.text.specs.Writing.{at_place, Wrote};
ghost use Rattle.sentences.specs.Sentence.{five, five_of, five_numbered, displayed, word_numbered};

use definition::refusal::Refusal;
use definition::{Handover, RunAnswer};
use text::Writer;

// "A display buffer under 120 bytes takes the existing refusal 12". No sentence has more bytes.
pub const DISPLAY_LENGTH: usize = 120;

fn write_named(out: &mut Writer<'_>, name: &[u8], n: u64)
    requires { Room (name.now ++ decimal n) (at_place out.old) }
    ensures { Wrote (name.now ++ decimal n) out.old out.new }
{
    out.write_bytes(name);
    out.write_decimal(n);
}

// The sentence at the front of the display buffer. The word is that of the answer, whose detail stands beside it.
#[tactic(auto, using(text::specs::Laws::decimal_10, text::specs::Laws::decimal_20, text::specs::Laws::signed_20, text::specs::Laws::word_7, crate::proofs::Displays::short_refused))]
fn compose_five(
    display: &mut [u8],
    answer: RunAnswer,
    detail: u32,
    count: u32,
    position: i64,
    function: usize,
) -> Result<usize, Refusal>
    ensures { outcome_of result display.new ≡ displayed (five (outcome_word answer) detail count position function) display.old }
{
    if display.len() < DISPLAY_LENGTH {
        return Err(Refusal::LentTooShort);
    }
    let mut out = Writer {
        buf: display,
        at: 0,
    };
    out.write_bytes(b"Run ");
    out.write_word(answer);
    write_named(&mut out, b", detail ", u64::from(detail));
    write_named(&mut out, b", statements ", u64::from(count));
    out.write_bytes(b", position ");
    out.write_signed(position);
    write_named(&mut out, b", function ", function as u64);
    out.write_byte(b'.');
    Ok(out.at)
}

// The sentence of a run's outcome.
pub fn compose(
    display: &mut [u8],
    answer: RunAnswer,
    count: u32,
    position: i64,
    function: usize,
) -> Result<usize, Refusal>
    ensures { outcome_of result display.new ≡ displayed (five_of answer count position function) display.old }
{
    let detail = text::outcome_detail(answer);
    compose_five(display, answer, detail, count, position, function)
}

// An outcome that has the word of this number, of which each makes another, and by which an exported function has it. Its own number is 0.
#[tactic(auto, unfolding(crate::specs::Sentence::word_numbered))]
fn outcome_worded(word: u32) -> RunAnswer
    ensures { outcome_word result ≡ word_numbered word }
{
    match word {
        1 => RunAnswer::Ended,
        2 => RunAnswer::Spent,
        4 => RunAnswer::HandedOver(Handover::Builtin(0)),
        5 => RunAnswer::HandedOver(Handover::Opcode(0)),
        _ => RunAnswer::Refused(0),
    }
}

// The sentence of an outcome in numbers, as an exported function has it: the word and the detail are those of a list of calls.
pub fn compose_numbers(
    display: &mut [u8],
    word: u32,
    detail: u32,
    count: u32,
    position: i64,
    function: usize,
) -> Result<usize, Refusal>
    ensures { outcome_of result display.new ≡ displayed (five_numbered word detail count position function) display.old }
{
    let answer = outcome_worded(word);
    compose_five(display, answer, detail, count, position, function)
}
