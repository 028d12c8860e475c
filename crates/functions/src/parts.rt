// The records of one lump as a slice of their own: what reads them needs no offset, no count and no bounds.
ghost use Rattle.std.specs.Prelude.{◌≡◌, true, ◌/◌, ◌≤◌, ◌++◌, length, drop};
ghost use Rattle.definition.specs.File.{lump_fits};
ghost use Rattle.functions.specs.Parts.{part_of, records_of};

use crate::reads::FromBytes;
use definition::Lump;

// An empty lump is the empty part, wherever its offset points.
#[tactic(auto, using(crate::specs::Laws::lump_end))]
pub fn part(file: &[u8], size: usize, lump: Lump) -> &[u8]
    requires { (lump_fits size (length file.now) lump ≡ true) × (size ≤ 36) }
    ensures { result.now ≡ part_of size lump file.now }
{
    let start = lump.offset;
    let count = lump.count;
    if count == 0 {
        return &file[..0];
    }
    let end = start + size * count;
    &file[start..end]
}

// All that a part has goes to the front of `into`; what stands behind it stays.
pub fn fill<T: FromBytes>(part: &[u8], into: &mut [T])
    requires { length part.now / T.SIZE ≤ length into.old }
    ensures { into.new ≡ records_of T.read_at T.SIZE part.now ++ drop (length part.now / T.SIZE) into.old }
{
    for i in 0..part.len() / T::SIZE {
        into[i] = T::read(part, T::SIZE * i);
    }
}
