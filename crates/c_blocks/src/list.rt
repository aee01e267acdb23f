//! The listing of a block.
ghost use Rattle.std.specs.Prelude.{◌≡◌};
ghost use Rattle.util.specs.Outcome.{result as answered};
ghost use Rattle.output.specs.Output.{write_outcome, write_output};
ghost use Rattle.listing.specs.Listing.{listing_text};
ghost use Rattle.told.specs.Told as Told;

use listing::list;
use told::tell_len;

/// Writes the listing of a block. A block that is refused is listed as one line.
#[unsafe(no_mangle)]
pub extern "C" fn rasclanya_list(input: &[u8], out: &mut [u8], len: &mut usize) -> u32
    ensures value { result ≡ Told.code_of (write_outcome (answered (listing_text input.now)) out.old) }
    ensures out_after { out.new ≡ write_output (answered (listing_text input.now)) out.old }
    ensures len_after { len.new ≡ Told.left len.old Told.itself (write_outcome (answered (listing_text input.now)) out.old) }
{
    tell_len(list(input, out), len)
}
