// Reading the lines of cases: words separated by one blank, numbers in decimal, bytes in hexadecimal.
// What a text that isn't so gives is not stated, but that any bytes give something: no line is refused.
ghost use Rattle.std.specs.Prelude.{◌≡◌, ◌≤◌, ◌++◌, length};
ghost use Rattle.std.specs.Iterator.{at_most};

use crate::digit;
use memchr::{memchr, memchr2};

// What lies up to the first `byte`, with it, and what follows it.
fn split_after(text: &[u8], byte: u8) -> (&[u8], &[u8])
    ensures value { result.0.now ++ result.1.now ≡ text.now }
    ensures len { length result.1.now ≤ length text.now }
{
    match memchr(byte, text) {
        Some(i) => text.split_at(i + 1),
        None => text.split_at(text.len()),
    }
}

// The number that the digits at the front spell, as far as a u64 holds it.
fn decimal(text: &[u8]) -> u64 {
    let mut x: u64 = 0;
    for b in text {
        if *b < b'0' {
            break;
        }
        x = x % 1_000_000_000_000_000_000 * 10 + u64::from(*b % 16);
    }
    x
}

// -n, as far as an i64 holds it: the complement of n - 1.
fn negative(n: u64) -> i64 {
    if n == 0 {
        return 0;
    }
    !(((n - 1) % 0x8000_0000_0000_0000) as i64)
}

// The two numbers after a line's first word; the first as a place and the second as a value, where they have no sign.
#[derive(Clone, Copy, Debug, PartialEq, Eq)]
pub struct Numbers {
    pub first: i64,
    pub second: i64,
    pub place: usize,
    pub value: u64,
}

// A place in the text: all that lies from it on. Where a line has no further word, the next word is one of a later line.
#[derive(Clone, Copy)]
pub struct Place<'a> {
    rest: &'a [u8],
}

impl<'a> Place<'a> {
    // The letter here, 0 at the end.
    pub fn letter(self) -> u8 {
        self.rest.first().copied().unwrap_or(0)
    }

    pub fn starts_with(self, letters: &[u8]) -> bool {
        self.rest.starts_with(letters)
    }

    // What lies before the next word, with the blank, and the next word.
    pub fn split_word(self) -> (&'a [u8], Place<'a>)
        ensures value { result.0.now ++ result.1.rest.now ≡ self.entry.rest.now }
        ensures len { length result.1.rest.now ≤ length self.entry.rest.now }
    {
        let (word, rest) = split_after(self.rest, b' ');
        (word, Place { rest })
    }

    pub fn next_word(self) -> Place<'a>
        ensures { length result.rest.now ≤ length self.entry.rest.now }
    {
        self.split_word().1
    }

    pub fn unsigned(self) -> u64 {
        decimal(self.rest)
    }

    // With `-` before it where it is negative.
    pub fn signed(self) -> i64 {
        match self.rest {
            [b'-', digits @ ..] => negative(decimal(digits)),
            digits => (decimal(digits) % 0x8000_0000_0000_0000) as i64,
        }
    }

    // A count that is at most `most`.
    pub fn count(self, most: usize) -> usize
        ensures { result ≤ most }
    {
        most.min(self.unsigned() as usize)
    }

    pub fn numbers(self) -> Numbers {
        let first = self.next_word();
        let second = first.next_word();
        Numbers {
            first: first.signed(),
            second: second.signed(),
            place: first.unsigned() as usize,
            value: second.unsigned(),
        }
    }

    // The bytes that the word here spells go to the front of `to`, and zeros after them. `-` is for none.
    pub fn bytes(self, to: &mut [u8]) {
        let end = memchr2(b' ', b'\n', self.rest);
        let word = &self.rest[..end.unwrap_or(self.rest.len())];
        let mut pairs = word.chunks_exact(2);
        for byte in to {
            *byte = match pairs.next() {
                Some([high, low]) => digit(*high) * 16 + digit(*low),
                _ => 0,
            };
        }
    }

    // The file that the words `LENGTH HEX` here spell goes to the front of `file`. The result is its length.
    pub fn file(self, file: &mut [u8]) -> usize
        ensures { result ≤ length file.new }
    {
        let n = self.count(file.len());
        self.next_word().bytes(&mut file[..n]);
        n
    }
}

// The places where the lines of a text begin. The next line is looked for from the second byte of a line on, so that the line after an empty one
// belongs to it.
#[derive(Clone, Copy, Drop)]
pub struct Lines<'a> {
    rest: &'a [u8],
}

impl<'a> Lines<'a> {
    pub fn of(text: &'a [u8]) -> Lines<'a>
        ensures { result.rest.now ≡ text.now }
    {
        Lines { rest: text }
    }
}

impl<'a> Iterator for Lines<'a> {
    type Item = Place<'a>;

    ghost remaining = { λ s. at_most (length s.rest.now) };

    fn next(&mut self) -> Option<Place<'a>> {
        let line = self.rest;
        let (_, after_first) = line.split_first()?;
        self.rest = split_after(after_first, b'\n').1;
        Some(Place { rest: line })
    }
}
