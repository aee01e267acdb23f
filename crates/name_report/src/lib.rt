//! What the calls of `name` answer for a name, printed for the program `block_calls`.

#![tactic(auto)]

use block_report::counted;
use errors::Refusal;
use name::Name;
use report::text;

// Prints what a name call answers to an output, and all of the output.
fn written<const N: usize, F: FnOnce(&mut [u8]) -> Result<usize, Refusal>>(
    title: &[u8],
    mut out: [u8; N],
    call: F,
)
    requires { F.IsAlwaysCallable call }
{
    text(title);
    counted(call(&mut out));
    text(b" ");
    text(&out);
    text(b"\n");
}

/// Both texts of a name, in an output that holds any text and in one of three bytes.
pub fn texts(name: Name) {
    written(b"safe", [b'.'; 32], |out| name.print_safe(out));
    written(b"safe", [b'.'; 3], |out| name.print_safe(out));
    written(b"display", [b'-'; 32], |out| name.display(out));
    written(b"display", [b'-'; 3], |out| name.display(out));
}
