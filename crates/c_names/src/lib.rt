//! The calls for C that write a name as a text. A name is the first 16 bytes of a slice; bytes that it lacks are 0.
//!
//! A slice is a pointer and a length. A call returns 0, or 11 where the output is too short; then it leaves what it is lent as it was.

#![tactic(auto)]

ghost use Rattle.std.specs.Prelude.{◌≡◌};
ghost use Rattle.util.specs.Outcome.{result as answered};
ghost use Rattle.output.specs.Output.{write_outcome, write_output};
ghost use Rattle.name.specs.Name.{safe_text, display_text};
ghost use Rattle.told.specs.Told as Told;

use name::Name;
use told::tell_len;

#[tactic(auto, using(crate::proofs::Padded::name_cut, crate::proofs::Padded::name_padded))]
fn name_of(bytes: &[u8]) -> Name
    ensures { result.0 ≡ Told.name_of bytes.now }
{
    let mut name = [0u8; 16];
    match bytes.first_chunk() {
        Some(first) => name = *first,
        None => name[..bytes.len()].copy_from_slice(bytes),
    }
    Name(name)
}

/// Writes the name as letters, digits and underscores.
#[unsafe(no_mangle)]
pub extern "C" fn rasclanya_print_safe(name: &[u8], out: &mut [u8], len: &mut usize) -> u32
    ensures value { result ≡ Told.code_of (write_outcome (answered (safe_text (Told.name_of name.now))) out.old) }
    ensures out_after { out.new ≡ write_output (answered (safe_text (Told.name_of name.now))) out.old }
    ensures len_after { len.new ≡ Told.left len.old Told.itself (write_outcome (answered (safe_text (Told.name_of name.now))) out.old) }
{
    tell_len(name_of(name).print_safe(out), len)
}

/// Writes the name in UTF-8.
#[unsafe(no_mangle)]
pub extern "C" fn rasclanya_display(name: &[u8], out: &mut [u8], len: &mut usize) -> u32
    ensures value { result ≡ Told.code_of (write_outcome (answered (display_text (Told.name_of name.now))) out.old) }
    ensures out_after { out.new ≡ write_output (answered (display_text (Told.name_of name.now))) out.old }
    ensures len_after { len.new ≡ Told.left len.old Told.itself (write_outcome (answered (display_text (Told.name_of name.now))) out.old) }
{
    tell_len(name_of(name).display(out), len)
}
