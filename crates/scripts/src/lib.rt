//! The take by which a script reads: the bytes that a block holds at a position, or what length it needs.

#![tactic(auto)]

ghost use Rattle.std.specs.Prelude.{◌≡◌, ◌+◌, ◌<◌, ◌^◌};
ghost use Rattle.util.specs.Outcome.{result as answered};
ghost use Rattle.errors.specs.Refusal.{outcome_as};
ghost use Rattle.scripts.specs.Script.{bytes_at, run, outcome_of};

use errors::Refusal;
use util::cur::{Needed, take_at};

/// The n bytes at pos, where block holds them.
#[tactic(auto, using(crate::proofs::Runs::take_passed, crate::proofs::Runs::take_missed, crate::proofs::Runs::take_fits))]
pub fn take(block: &[u8], pos: usize, n: usize) -> Result<&[u8], Refusal>
    requires { pos + n < 2 ^ 64 }
    ensures { outcome_as (λ part. part.now) result ≡ outcome_of (run (bytes_at pos n) block.now) answered }
{
    take_at(block, pos, n).map_err(
        |needed: Needed|
            requires { needed.0 < 2 ^ 64 }
        { Refusal::Short(needed.0 as usize) },
    )
}
