//! How the test programs print texts, numbers and answers.

#![tactic(auto)]

use errors::Refusal;

/// The file descriptor of standard input.
pub const STDIN_FILENO: i32 = 0;

/// The file descriptor of standard output.
pub const STDOUT_FILENO: i32 = 1;

/// Prints bytes as they are.
pub fn text(bytes: &[u8]) {
    io::write_all(STDOUT_FILENO, bytes);
}

/// Prints a number in decimal.
pub fn decimal(n: u64) {
    io::print_decimal(STDOUT_FILENO, n);
}

/// Prints a space, and a number in decimal.
pub fn number(n: u64) {
    text(b" ");
    decimal(n);
}

/// Prints that a call was declined: the refusal's number and what is returned with it.
pub fn refused(refusal: Refusal) {
    text(b" | no ");
    decimal(refusal.number() as u64);
    number(refusal.returned() as u64);
}

/// Prints an answer that is a number or a refusal.
pub fn counted(answer: Result<usize, Refusal>) {
    answer.map_or_else(refused, |n| {
        text(b" | ok");
        number(n as u64);
    });
}
