//! Fetching: a call over a whole block, lent no more of it than an answer before has asked for.
ghost use Rattle.std.specs.Prelude.{◌≡◌, List, ℕ};
ghost use Rattle.errors.specs.Refusal.{result_outcome};
ghost use Rattle.reading.specs.Tex.{read_tex};
ghost use Rattle.laws.proofs.Calls.{Scripted};
ghost use Rattle.stream.specs.Fetch as Fetch;

use errors::Refusal;

#[derive(Clone, Copy, Debug, PartialEq, Eq)]
pub struct Fetched<T> {
    /// The last answer.
    pub answer: Result<T, Refusal>,
    /// How many answers were short, the last included.
    pub short_answers: usize,
}

// A call on the first bytes of a block, with an output. It goes by what the reading of those bytes comes to.
pub(crate) trait Attempt {
    type Answer: Copy;

    ghost call: { Self → Fetch.Call Self.Answer (List ℕ) };

    fn attempt(&self, first: &[u8], out: &mut [u8]) -> Result<Self::Answer, Refusal>
        ensures answered { result_outcome result ≡ (call self.now).answer first.now out.old }
        ensures leaves { out.new ≡ (call self.now).leaves first.now out.old };

    ghost scripted: { (it : Self) (output : List ℕ) → Scripted read_tex (λ b. (call it).answer b output) (λ b. (call it).leaves b output) output };
}

// Makes the call on the block's first 0 bytes, then on as many as the last answer needed, until an answer is not short or needs more than the
// block has. Each attempt gets the output as the one before left it.
pub(crate) fn fetch<C: Attempt>(call: &C, block: &[u8], out: &mut [u8]) -> Fetched<C::Answer>
    ensures { Fetch.Fetched (C.call call.now) block.now out.old (result_outcome result.answer) out.new result.short_answers }
{
    let mut answer = call.attempt(&[], out);
    let mut short_answers: usize = 0;
    while let Some(needed) = answer.err().and_then(Refusal::needed) {
        short_answers += 1;
        let Some(first) = block.get(..needed) else {
            break;
        };
        answer = call.attempt(first, out);
    }
    Fetched {
        answer,
        short_answers,
    }
}
