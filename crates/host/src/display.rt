// The sentence of a run's outcome for a display (document 02, R-8). It takes no state. A function that is exported can't return an enum, so the answer is
// two numbers: the length of what was written and the refusal's number, each 0 where there is none.
ghost use Rattle.std.specs.Prelude.{◌≡◌};
ghost use Rattle.definition.specs.Refusals.{checked};
ghost use Rattle.host.specs.Display.{write_reply, display_of, after_sentence};

use definition::refusal::Refusal;

#[repr(C)]
#[derive(Clone, Copy)]
pub struct WriteReply {
    pub length: usize,
    pub refusal: u32,
}

impl From<Result<usize, Refusal>> for WriteReply {
    ghost from_gives = { λ answer reply. reply ≡ write_reply (checked answer) };

    fn from(answer: Result<usize, Refusal>) -> WriteReply {
        match answer {
            Ok(length) => WriteReply { length, refusal: 0 },
            Err(refusal) => WriteReply {
                length: 0,
                refusal: u32::from(refusal.number()),
            },
        }
    }
}

// Word, detail and count are those that a run answered; position and function stand in the context after it.
#[unsafe(no_mangle)]
pub extern "C" fn host_sentence(
    word: u32,
    detail: u32,
    count: u32,
    position: i64,
    function: usize,
    display: &mut [u8],
) -> WriteReply
    ensures { display_of result display.new ≡ after_sentence word detail count position function display.old }
{
    sentences::compose_numbers(display, word, detail, count, position, function).into()
}
