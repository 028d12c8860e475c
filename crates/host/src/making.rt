// The load file of a seed and a number of drawn statements (document 02, R-10). It takes no state, and its answer is in the numbers of `display`.
ghost use Rattle.std.specs.Prelude.{◌≡◌};
ghost use Rattle.host.specs.Making.{making_of, after_making};

use crate::display::WriteReply;

#[unsafe(no_mangle)]
pub extern "C" fn host_make_file(seed: u32, n: i64, output: &mut [u8]) -> WriteReply
    ensures { making_of result output.new ≡ after_making seed n output.old }
{
    load_files::make_file(seed, n, output).into()
}
