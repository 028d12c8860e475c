// What the programs that run cases share: the numbers of records of a fixed length, the lines of a text, and how many of the cases came out otherwise than
// they say. Besides, for callers that hold a line as text, readers of its words that refuse what they can't read.
#![tactic(auto)]

ghost use Rattle.std.specs.Prelude.{◌≡◌, ◌+◌, ◌≤◌, ◌<◌, length, Some, None, Ok, IfOk, MatchResult};
ghost use Rattle.std.specs.Str.Iter.{split_ascii_whitespace_steps};
ghost use Rattle.std.specs.declared.str.SplitAsciiWhitespace.{SplitAscii};
ghost use Rattle.vectors.specs.Words.{Takes, number_in, SpellsFile};

use hex::FromHexError;
use std::alloc::{AllocError, Global};
use std::fmt;
use std::num::{ParseIntError, TryFromIntError};
use std::str::{FromStr, SplitAsciiWhitespace};
use thiserror::Error;

pub mod lines;
#[cfg(test)]
mod tests;

// A program reads at most so many records.
pub const MOST_LINES: u64 = 1_000_000;

// A hexadecimal digit in lower case. What another byte gives is not stated.
fn digit(b: u8) -> u8
    ensures { result < 16 }
{
    if b < b'a' { b % 16 } else { (b % 16 + 9) % 16 }
}

// The number that the `n` digits from `at` on spell.
pub fn number(line: &[u8], at: usize, n: usize) -> u32
    requires { at + n ≤ length line.now }
{
    let mut x: u32 = 0;
    for b in &line[at..at + n] {
        x = x % 0x1000_0000 * 16 + u32::from(digit(*b));
    }
    x
}

// Why a line can't be read.
#[derive(Debug, Drop, Error)]
pub enum LineError {
    #[error("a word is missing")]
    Missing,
    #[error("no line says that")]
    Unknown,
    #[error("a word that should be a number: {0}")]
    Number(#[from] ParseIntError),
    #[error("a number that is too large: {0}")]
    Large(#[from] TryFromIntError),
    #[error("a word that should be bytes: {0}")]
    Bytes(#[from] FromHexError),
    #[error(transparent)]
    Memory(#[from(alloc)] AllocError),
}

// The words of a line.
pub type Words<'a> = SplitAsciiWhitespace<'a>;

pub fn next_word<'a>(words: &mut Words<'a>) -> Result<&'a str, LineError>
    ensures { MatchResult result (λ w. split_ascii_whitespace_steps words.old (Some w) words.new) (λ e. (e ≡ LineError.Missing) × split_ascii_whitespace_steps words.old None words.new) }
{
    words.next().ok_or(LineError::Missing)
}

// The number that the next word spells in decimal.
pub fn next_number<T: FromStr<Err = ParseIntError>>(words: &mut Words<'_>) -> Result<T, LineError>
    ensures { IfOk result (λ n. Takes words.old words.new (λ word. T.from_str_gives word (Ok n))) }
{
    let word = next_word(words)?;
    Ok(word.parse()?)
}

// The number that the next word spells in hexadecimal.
pub fn next_hex(words: &mut Words<'_>) -> Result<u32, LineError>
    ensures { IfOk result (λ n. Takes words.old words.new (λ word. n ≡ number_in 16 word)) }
{
    let word = next_word(words)?;
    Ok(u32::from_str_radix(word, 16)?)
}

// The file that the next two words spell: its length, and its first bytes in hexadecimal or `-` for none. Those that aren't given are zeros.
pub fn next_file(alloc: Global, words: &mut Words<'_>) -> Result<Vec<u8>, LineError>
    ensures { IfOk result (λ file. (m : SplitAscii) × Takes words.old m (λ first. Takes m words.new (λ second. SpellsFile first second file.items))) }
{
    let length = next_number(words)?;
    let mut file = match next_word(words)? {
        "-" => Vec::new(alloc),
        digits => hex::decode(alloc, digits)?,
    };
    file.resize(length, 0)?;
    Ok(file)
}

// A value goes to its place, if there is one.
pub fn put<T: Drop>(items: &mut [T], place: usize, value: T) {
    if let Some(item) = items.get_mut(place) {
        *item = value;
    }
}

// How many cases were run, and how many of them differ from what is given.
#[derive(Clone, Copy, Debug, Default, PartialEq, Eq)]
pub struct Counts {
    pub cases: u64,
    pub differ: u64,
}

impl Counts {
    pub fn count(&mut self, same: bool) {
        self.cases = self.cases.saturating_add(1);
        if !same {
            self.differ = self.differ.saturating_add(1);
        }
    }
}

impl fmt::Display for Counts {
    fn fmt<W: fmt::Write>(&self, f: &mut fmt::Formatter<W>) -> fmt::Result {
        let Counts { cases, differ } = self;
        write!(f, "{cases} cases, {differ} differ")
    }
}
