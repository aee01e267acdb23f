//! Reading the list of cases that the program `replay` runs, from standard input: bytes, and parts behind their length.

#![tactic(auto)]

ghost use Rattle.std.specs.Prelude.{◌≡◌, ◌≤◌, length, IfOk, OnOk};

use report::STDIN_FILENO;

/// The limit of a block, and of each part of a direct decoding.
pub const MAX_PART: usize = 4096;

/// The limit of a direct decoding's three parts together.
pub const MAX_PARTS: usize = 3 * MAX_PART;

/// The list is broken: it is cut, or a length is over its limit.
#[derive(Clone, Copy, Debug, PartialEq, Eq)]
pub struct Broken;

/// Reads the list's next len bytes to the start of the buffer, and returns them. The list is broken where there are fewer, or the buffer is
/// shorter.
pub fn next_bytes<'a>(buffer: &'a mut [u8], len: usize) -> Result<&'a [u8], Broken>
    ensures whole { IfOk result (λ bytes. length bytes.now ≡ len) }
    ensures limit { OnOk result (len ≤ length buffer.old) }
{
    let bytes = buffer.get_mut(..len).ok_or(Broken)?;
    if io::read_full(STDIN_FILENO, bytes) != len {
        return Err(Broken);
    }
    Ok(bytes)
}

// The list's next N bytes.
fn next_array<const N: usize>() -> Result<[u8; N], Broken> {
    let mut bytes = [0; N];
    next_bytes(&mut bytes, N)?;
    Ok(bytes)
}

/// The list's next byte.
pub fn next_u8() -> Result<u8, Broken> {
    let [byte] = next_array::<1>()?;
    Ok(byte)
}

/// Reads a length, and as many bytes to the start of the buffer.
pub fn next_part<'a>(buffer: &'a mut [u8]) -> Result<&'a [u8], Broken>
    ensures { IfOk result (λ part. length part.now ≤ length buffer.old) }
{
    let len = u32::from_le_bytes(next_array()?);
    next_bytes(buffer, len as usize)
}
