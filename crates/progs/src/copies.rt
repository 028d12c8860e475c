// Copying cells: a range between the cells and the saved store, and cells to cells one at a time.
ghost use Rattle.std.specs.Prelude.{◌≡◌, true, ◌≤◌, length, drop};
ghost use Rattle.std.proofs.Math.Seq.{paste};
ghost use Rattle.definition.specs.Machine.{present, copied, successive, arguments, copies_present};

// The count cells from first on are below size. An empty range starts anywhere.
#[tactic(auto, unfolding(definition::specs::Machine::present))]
pub fn in_range(first: usize, count: usize, size: usize) -> bool
    ensures { result ≡ present first count size }
{
    count == 0 || (count <= size && first <= size - count)
}

// The count cells of src from first on go to dst from at on: this saves locals, and it restores them.
#[tactic(auto, using(crate::proofs::CopyLaws::present_reaches))]
pub fn move_cells(src: &[u32], dst: &mut [u32], first: usize, at: usize, count: usize)
    requires src_value { present first count (length src.now) ≡ true }
    requires dst_value { present at count (length dst.old) ≡ true }
    ensures { dst.new ≡ paste dst.old at (drop first src.now) count }
{
    for i in 0..count {
        dst[at + i] = src[first + i];
    }
}

// The count cells from `from` on go to those from `to` on, one at a time, the first one first: where the ranges overlap, that isn't `copy_within`.
#[tactic(auto, using(crate::proofs::CopyLaws::present_reaches, crate::proofs::CopyLaws::copied_none, crate::proofs::CopyLaws::copied_next))]
pub fn copy_cells(cells: &mut [u32], from: usize, to: usize, count: usize)
    requires cells_value { present from count (length cells.old) ≡ true }
    requires cells_value_2 { present to count (length cells.old) ≡ true }
    ensures { cells.new ≡ copied (successive count from to) cells.old }
{
    for i in 0..count {
        cells[to + i] = cells[from + i];
    }
}

// Every cell that an argument comes from or goes to is below size.
#[tactic(auto, using(crate::proofs::CopyLaws::rest_there, crate::proofs::CopyLaws::present_ends, crate::proofs::CopyLaws::copies_on))]
pub fn arguments_in_range(argsz: [u8; 8], start: usize, argc: usize, size: usize) -> bool
    requires { argc ≤ 8 }
    ensures { result ≡ copies_present size (arguments argc 0 start argsz) }
{
    let mut to = start;
    for i in 0..argc {
        let n = argsz[i] as usize;
        if !(in_range(4 + 3 * i, n, size) && in_range(to, n, size)) {
            return false;
        }
        to += n;
    }
    true
}

// The arguments go to successive cells from start on.
#[tactic(auto, using(crate::proofs::CopyLaws::rest_copied, crate::proofs::CopyLaws::present_ends, crate::proofs::CopyLaws::copies_on, crate::proofs::CopyLaws::copied_on))]
pub fn copy_arguments(cells: &mut [u32], argsz: [u8; 8], start: usize, argc: usize)
    requires argc_bound { argc ≤ 8 }
    requires argsz_value { copies_present (length cells.old) (arguments argc 0 start argsz) ≡ true }
    ensures { cells.new ≡ copied (arguments argc 0 start argsz) cells.old }
{
    let mut to = start;
    for i in 0..argc {
        let n = argsz[i] as usize;
        copy_cells(cells, 4 + 3 * i, to, n);
        to += n;
    }
}
