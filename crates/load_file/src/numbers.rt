// Two decimal numbers from a line.
ghost use Rattle.std.specs.Prelude.{◌≡◌, true, ◌≤◌, length, get_or, drop};
ghost use Rattle.load_file.specs.Numbers.{is_digit, with_digit, in32_bits, number_from, numbers_of};

// The longest line that is read.
pub const LONGEST_LINE: usize = 64;

// A number, and the place behind its last digit.
#[derive(Clone, Copy)]
pub struct Number {
    pub value: u32,
    pub next: usize,
}

#[derive(Clone, Copy)]
pub struct Numbers {
    pub seed: u32,
    pub n: u32,
}

// 0 past the end.
fn byte_at(line: &[u8], i: usize) -> u8
    ensures { result ≡ get_or line.now i 0 }
{
    line.get(i).copied().unwrap_or(0)
}

// Past 32 bits a number grows no further, so that no sum wraps.
#[tactic(auto, using(crate::proofs::Reading::least_digit), unfolding(crate::specs::Numbers::with_digit))]
fn with_digit(v: u64, x: u8) -> u64
    requires { is_digit x ≡ true }
    ensures { result ≡ with_digit v x }
{
    if v < 0x1_0000_0000 {
        v * 10 + u64::from(x - b'0')
    } else {
        v
    }
}

#[tactic(auto, unfolding(crate::specs::Numbers::in32_bits))]
fn in_32_bits(v: u64) -> u32
    ensures { result ≡ in32_bits v }
{
    u32::try_from(v).unwrap_or(0)
}

// The number whose digits start at a place. A byte past the end is no digit.
#[tactic(auto, using(crate::proofs::Reading::one_digit, crate::proofs::Reading::no_digit, crate::proofs::Reading::all_read))]
fn read_number(line: &[u8], from: usize) -> Number
    requires { from ≤ length line.now }
    ensures { (result ≡ number_from 0 from (drop from line.now)) × (result.next ≤ length line.now) }
{
    let mut v: u64 = 0;
    let mut next = from;
    for digit in &line[from..] {
        if !digit.is_ascii_digit() {
            break;
        }
        v = with_digit(v, *digit);
        next += 1;
    }
    Number {
        value: in_32_bits(v),
        next,
    }
}

#[tactic(auto, using(crate::proofs::Reading::inside, crate::proofs::Lines::too_long, crate::proofs::Lines::no_blank, crate::proofs::Lines::no_end, crate::proofs::Lines::goes_on, crate::proofs::Lines::both_read))]
pub fn read_numbers(line: &[u8]) -> Numbers
    ensures { result ≡ numbers_of line.now }
{
    let none = Numbers { seed: 0, n: 0 };
    if LONGEST_LINE < line.len() {
        return none;
    }
    let first = read_number(line, 0);
    let blank = first.next;
    if byte_at(line, blank) != b' ' {
        return none;
    }
    let second = read_number(line, blank + 1);
    let end = second.next;
    if byte_at(line, end) != b'\n' {
        return none;
    }
    if end + 1 != line.len() {
        return none;
    }
    Numbers {
        seed: first.value,
        n: second.value,
    }
}
