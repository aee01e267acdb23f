//! Writes what the calls of the byte layer answer at their limits, a line a call.

#![tactic(auto)]

use cursor::{nth_u16, part_at};
use report::{decimal, text};
use util::bits::bits;
use util::cur::{Needed, peek, take_at};
use util::unsigned::Unsigned;

// Writes a number and the end of the line.
fn number(n: u64) {
    decimal(n);
    text(b"\n");
}

// A length that exceeds 64 bits is written as 2^64 and what is left.
fn short(needed: Needed) {
    text(b"short ");
    if needed.0 > u128::from(u64::MAX) {
        text(b"2^64 + ");
    }
    number((needed.0 % (1 << 64)) as u64);
}

// Writes bits lo to hi - 1 of a number, behind the name that the stored output has for the call.
fn field<T: Unsigned>(name: &[u8], x: T, lo: u32, hi: u32) {
    text(name);
    number(u64::from(bits(x, lo, hi).into()));
}

// Whether the take passes, with the end of its bytes; and the part that is there.
#[tactic(auto, using(util::proofs::Takes::taken_there, util::proofs::Takes::taken_length))]
fn taken(buf: &[u8], pos: usize, n: usize) {
    text(b"take ");
    match take_at(buf, pos, n) {
        Ok(bytes) => {
            text(b"whole ");
            number((pos + bytes.len()) as u64);
        }
        Err(needed) => short(needed),
    }
    text(b"part [");
    text(part_at(buf, pos, n));
    text(b"]\n");
}

// Writes the answer of a call that reads a number.
fn peeked<T: Unsigned>(answer: Result<T, Needed>) {
    text(b"peek ");
    match answer {
        Ok(n) => number(u64::from(n.into())),
        Err(needed) => short(needed),
    }
}

// Bit fields, also empty ones and ones that exceed the number.
fn bit_fields() {
    field(b"bits_u8 ", 0xe5u8, 0, 5);
    field(b"bits_u8 ", 0xe5u8, 5, 8);
    field(b"bits_u8 ", 0xe5u8, 0, 8);
    field(b"bits_u8 ", 0xe5u8, 7, 8);
    field(b"bits_u8 ", 0xe5u8, 8, 8);
    field(b"bits_u8 ", 0xe5u8, 5, 2);
    field(b"bits_u8 ", 0xe5u8, 0, 9);
    field(b"bits_u8 ", 0xe5u8, 0, 4294967295);
    field(b"bits_u16 ", 0xabcdu16, 0, 14);
    field(b"bits_u16 ", 0xabcdu16, 14, 16);
    field(b"bits_u16 ", 0xabcdu16, 0, 16);
    field(b"bits_u16 ", 0xabcdu16, 15, 17);
    field(b"bits_u16 ", 0xabcdu16, 16, 16);
    field(b"bits_u32 ", 0xabcdef00u32, 8, 16);
    field(b"bits_u32 ", 0xabcdef00u32, 16, 28);
    field(b"bits_u32 ", 0xabcdef00u32, 0, 32);
    field(b"bits_u32 ", 0xabcdef00u32, 31, 32);
    field(b"bits_u32 ", 0xabcdef00u32, 32, 33);
    field(b"bits_u32 ", 0xabcdef00u32, 4294967295, 0);
}

// Takes at the buffer's limits.
fn takes(buf: &[u8]) {
    taken(buf, 0, 0);
    taken(buf, 0, 8);
    taken(buf, 0, 9);
    taken(buf, 3, 4);
    taken(buf, 7, 1);
    taken(buf, 7, 2);
    taken(buf, 8, 0);
    taken(buf, 8, 1);
    taken(buf, 9, 0);
    taken(buf, 18446744073709551615, 0);
    taken(buf, 18446744073709551615, 1);
    taken(buf, 1, 18446744073709551615);
    taken(buf, 18446744073709551615, 18446744073709551615);
}

// Numbers at the buffer's limits.
fn numbers(buf: &[u8]) {
    peeked(peek::<u8>(buf, 0));
    peeked(peek::<u8>(buf, 7));
    peeked(peek::<u8>(buf, 8));
    peeked(peek::<u16>(buf, 1));
    peeked(peek::<u16>(buf, 6));
    peeked(peek::<u16>(buf, 7));
    peeked(peek::<u32>(buf, 0));
    peeked(peek::<u32>(buf, 4));
    peeked(peek::<u32>(buf, 5));
    peeked(peek::<u32>(buf, 18446744073709551612));
}

// The same for numbers that are counted from a position on.
fn nth_numbers(buf: &[u8]) {
    peeked(nth_u16(buf, 0, 0));
    peeked(nth_u16(buf, 0, 3));
    peeked(nth_u16(buf, 0, 4));
    peeked(nth_u16(buf, 1, 2));
    peeked(nth_u16(buf, 1, 3));
    peeked(nth_u16(buf, 6, 0));
    peeked(nth_u16(buf, 7, 0));
    peeked(nth_u16(buf, 9, 0));
    peeked(nth_u16(buf, 0, 4294967295));
    peeked(nth_u16(buf, 18446744073709551608, 3));
    peeked(nth_u16(buf, 18446744073709551608, 4));
    peeked(nth_u16(buf, 18446744073709551615, 4294967295));
}

// Runs every call.
fn main() {
    let buf = b"TEX0abcd";
    bit_fields();
    takes(buf);
    takes(b"");
    numbers(buf);
    nth_numbers(buf);
    nth_numbers(b"");
}
