//! The cursor: a slice and a position in it, kept together; and what the reader and the decoders ask of it, as calls on a slice and a position.

#![tactic(auto)]

ghost use Rattle.std.specs.Prelude.{◌≡◌, ◌+◌, ◌*◌, length};
ghost use Rattle.util.specs.Take.{taken_outcome, peek_of, taken_part, taken_to};
ghost use Rattle.cursor.specs.Cursor.{bytes, taken_on};

use util::cur::{Needed, take_at};
use util::unsigned::Unsigned;

// The n-th number of 2 bytes from pos on, counted from 0.
#[tactic(auto, using(util::proofs::Takes::taken_length, util::proofs::Takes::number_taken, util::proofs::Takes::same_short))]
fn nth_u16_of(buf: &[u8], pos: usize, n: u32) -> Result<u16, Needed>
    ensures { taken_outcome result ≡ peek_of 2 (pos + 2 * n) buf.now }
{
    let before = 2 * (n as usize);
    let numbers = take_at(buf, pos, before + 2)?;
    Ok(u16::view(numbers, before))
}

/// A slice and a position in it, which may be beyond the end.
#[derive(Clone, Copy)]
pub struct Cur<'a> {
    pub buf: &'a [u8],
    pub pos: usize,
}

impl<'a> Cur<'a> {
    /// The n-th number of 2 bytes from the position on, counted from 0. The position stays.
    pub fn nth_u16(self, n: u32) -> Result<u16, Needed>
        ensures { taken_outcome result ≡ peek_of 2 (self.entry.pos + 2 * n) (bytes self.entry) }
    {
        nth_u16_of(self.buf, self.pos, n)
    }

    /// The n bytes at the position, which moves behind them, as the part of the slice that they occupy. A short take hands out the empty part
    /// and leaves the position.
    #[tactic(auto, using(util::proofs::Takes::took, util::proofs::Takes::lacked, util::proofs::Takes::part_there, util::proofs::Takes::part_none, util::proofs::Takes::moves, util::proofs::Takes::stays))]
    pub fn next_n_u8s(&mut self, n: usize) -> &'a [u8]
        ensures { (result.now ≡ taken_part self.old.pos n (bytes self.old)) × (self.new ≡ taken_on self.old n) }
    {
        match take_at(self.buf, self.pos, n) {
            Ok(part) => {
                self.pos += n;
                part
            }
            Err(_) => &[],
        }
    }
}

/// The n-th number of 2 bytes from pos on, counted from 0.
pub fn nth_u16(buf: &[u8], pos: usize, n: u32) -> Result<u16, Needed>
    ensures { taken_outcome result ≡ peek_of 2 (pos + 2 * n) buf.now }
{
    Cur { buf, pos }.nth_u16(n)
}

/// The n bytes at pos, as the part of buf that they occupy, or the empty part where buf is short.
pub fn part_at(buf: &[u8], pos: usize, n: usize) -> &[u8]
    ensures { result.now ≡ taken_part pos n buf.now }
{
    Cur { buf, pos }.next_n_u8s(n)
}
