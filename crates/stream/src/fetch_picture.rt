//! Fetching a picture.
ghost use Rattle.std.specs.Prelude.{List, ℕ};
ghost use Rattle.errors.specs.Refusal.{result_outcome};
ghost use Rattle.stream.specs.Fetch as Fetch;
ghost use Rattle.laws.proofs.Calls.{picture_scripted};

use crate::fetch::{Attempt, Fetched, fetch};
use decode::picture::picture;
use errors::Refusal;

#[derive(Clone, Copy, Debug, PartialEq, Eq)]
struct Picture {
    n: usize,
    choice: Option<usize>,
}

impl Attempt for Picture {
    type Answer = usize;

    ghost call = { λ it. Fetch.picture_call it.n it.choice };

    ghost scripted = { λ it output. picture_scripted it.n it.choice output };

    fn attempt(&self, first: &[u8], out: &mut [u8]) -> Result<usize, Refusal> {
        picture(first, self.n, self.choice, out)
    }
}

/// Makes a picture from the block's first 0 bytes, then from as many as the last answer needed, until an answer is not short or needs more
/// than the block has. Each attempt gets the output as the one before left it.
pub fn fetch_picture(
    block: &[u8],
    n: usize,
    choice: Option<usize>,
    out: &mut [u8],
) -> Fetched<usize>
    ensures { Fetch.Fetched (Fetch.picture_call n choice) block.now out.old (result_outcome result.answer) out.new result.short_answers }
{
    fetch(&Picture { n, choice }, block, out)
}
