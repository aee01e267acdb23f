//! Takes: the bytes at a position of a slice, or the length that the slice would need to hold them.
ghost use Rattle.std.specs.Prelude.{◌≡◌, ◌+◌};
ghost use Rattle.util.specs.Take.{taken_as, bytes_of, peek_of};

use crate::unsigned::Unsigned;

/// The length that a short take needs, what document 01 calls its want: any sum of a position and a length.
#[derive(Clone, Copy, Debug, PartialEq, Eq)]
pub struct Needed(pub u128);

/// The n bytes at pos, where buf holds them. A take of 0 bytes passes at buf's end, and not beyond it.
#[tactic(auto, using(crate::proofs::Takes::passes, crate::proofs::Takes::falls_short))]
pub fn take_at(buf: &[u8], pos: usize, n: usize) -> Result<&[u8], Needed>
    ensures { taken_as (λ part. part.now) result ≡ bytes_of pos n buf.now }
{
    match pos.checked_add(n) {
        Some(end) if end <= buf.len() => Ok(&buf[pos..end]),
        _ => Err(Needed(pos as u128 + n as u128)),
    }
}

/// The little-endian number at pos, of as many bytes as the type has.
#[tactic(auto, using(crate::proofs::Takes::taken_length, crate::proofs::Takes::number_taken, crate::proofs::Takes::same_short))]
pub fn peek<T: Unsigned>(buf: &[u8], pos: usize) -> Result<T, Needed>
    ensures { taken_as T.number result ≡ peek_of T.SIZE pos buf.now }
{
    let bytes = take_at(buf, pos, T::SIZE)?;
    Ok(T::view(bytes, 0))
}
