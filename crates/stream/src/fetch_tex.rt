//! Fetching a reading.
ghost use Rattle.std.specs.Prelude.{List, ℕ};
ghost use Rattle.errors.specs.Refusal.{result_outcome};
ghost use Rattle.scripts.specs.Script.{run};
ghost use Rattle.reading.specs.Tex as Tex;
ghost use Rattle.nitro.specs.Calls.{reading_of};
ghost use Rattle.stream.specs.Fetch as Fetch;
ghost use Rattle.laws.proofs.Calls.{reading_keeps};

use crate::fetch::{Attempt, Fetched, fetch};
use errors::Refusal;
use nitro::tex::{Counts, read_tex};

#[derive(Clone, Copy, Debug, PartialEq, Eq)]
struct Reading;

impl Attempt for Reading {
    type Answer = Counts;

    ghost call = { λ it. record { answer = λ block output. reading_of (run Tex.read_tex block); leaves = λ block output. output } };

    ghost scripted = { λ it output. reading_keeps output };

    fn attempt(&self, first: &[u8], _out: &mut [u8]) -> Result<Counts, Refusal> {
        read_tex(first)
    }
}

/// Reads the block's first 0 bytes, then as many as the last answer needed, until an answer is not short or needs more than the block has.
pub fn fetch_tex(block: &[u8]) -> Fetched<Counts>
    ensures { Fetch.Fetched Fetch.reading_call block.now tt (result_outcome result.answer) tt result.short_answers }
{
    fetch(&Reading, block, &mut [])
}
