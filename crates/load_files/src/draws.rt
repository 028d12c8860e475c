// Draws of 32 bits, each made of the one before it; the first is made of the seed.
ghost use Rattle.std.specs.Prelude.{◌≡◌};
ghost use Rattle.load_files.specs.Draws.{draw, after};

#[tactic(auto, using(crate::proofs::Shifts::drawn_by_shifts))]
pub fn draw(s: u32) -> u32
    ensures { result ≡ draw s }
{
    let a = s ^ (s << 13);
    let b = a ^ (a >> 17);
    b ^ (b << 5)
}

// So many draws, of which the last is given.
#[tactic(auto, using(crate::proofs::Drawing::after_none, crate::proofs::Drawing::after_more))]
pub fn skip(seed: u32, count: usize) -> u32
    ensures { result ≡ after count seed }
{
    let mut s = seed;
    for _ in 0..count {
        s = draw(s);
    }
    s
}
