//! The listing program: writes the listing of the TEX0 block on its standard input.

#![tactic(auto)]

use listing::{MAX_INPUT, MAX_LISTING};

// The file descriptor of standard input.
const STDIN_FILENO: i32 = 0;

// The file descriptor of standard output.
const STDOUT_FILENO: i32 = 1;

// One byte more than may be read is enough to know that the input is too long.
fn main() {
    let mut input = [0; MAX_INPUT + 1];
    let mut out = [0; MAX_LISTING];
    let n = io::read_full(STDIN_FILENO, &mut input);
    let len = listing::list_whole(&input[..n], &mut out);
    io::write_all(STDOUT_FILENO, &out[..len]);
}
