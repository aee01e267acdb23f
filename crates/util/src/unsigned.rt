//! The types of the numbers that records hold: whole numbers without sign, of 1, 2 and 4 bytes.
ghost use Rattle.std.specs.Prelude.{◌≡◌, ◌+◌, ◌^◌, ◌<◌, ◌≤◌, ℕ, length, refl};
ghost use Rattle.std.proofs.Common.{lit≤};
ghost use Rattle.util.specs.Number.{number_at};

pub trait Unsigned: Copy + Into<u32> {
    // The number that a value of the type is.
    ghost number: { Self → ℕ };

    // How many bytes a number of the type has.
    ghost SIZE: { ℕ };

    const SIZE: usize;

    // How many bits it has.
    ghost BITS: { ℕ };

    const BITS: u32;

    /// The little-endian number at a position of a slice that is known to hold it. Where that is not known, cur has the call peek.
    fn view(buf: &[u8], pos: usize) -> Self
        requires { pos + SIZE ≤ length buf.now }
        ensures { number result ≡ number_at SIZE pos buf.now };

    fn of_u32(n: u32) -> Self
        requires { n < 2 ^ BITS }
        ensures { number result ≡ n };

    // Each of the types goes into u32.
    ghost narrow: { BITS ≤ 32 };

    ghost short: { SIZE ≤ 4 };

    ghost into_law: { (x : Self) (n : ℕ) → Self.converts x n → n ≡ number x };
}

impl Unsigned for u8 {
    ghost number = { λ x. x };

    ghost SIZE = { 1 };

    const SIZE: usize = 1;

    ghost BITS = { 8 };

    const BITS: u32 = 8;

    #[tactic(auto, using(crate::proofs::Numbers::number_one))]
    fn view(buf: &[u8], pos: usize) -> u8 {
        buf[pos]
    }

    fn of_u32(n: u32) -> u8 {
        n as u8
    }

    ghost narrow = { lit≤ tt };

    ghost short = { lit≤ tt };

    ghost into_law = { λ x n h. h };
}

impl Unsigned for u16 {
    ghost number = { λ x. x };

    ghost SIZE = { 2 };

    const SIZE: usize = 2;

    ghost BITS = { 16 };

    const BITS: u32 = 16;

    #[tactic(auto, using(crate::proofs::Numbers::number_of_2))]
    fn view(buf: &[u8], pos: usize) -> u16 {
        u16::from_le_bytes([buf[pos], buf[pos + 1]])
    }

    fn of_u32(n: u32) -> u16 {
        n as u16
    }

    ghost narrow = { lit≤ tt };

    ghost short = { lit≤ tt };

    ghost into_law = { λ x n h. h };
}

impl Unsigned for u32 {
    ghost number = { λ x. x };

    ghost SIZE = { 4 };

    const SIZE: usize = 4;

    ghost BITS = { 32 };

    const BITS: u32 = 32;

    #[tactic(auto, using(crate::proofs::Numbers::number_of_4))]
    fn view(buf: &[u8], pos: usize) -> u32 {
        u32::from_le_bytes([buf[pos], buf[pos + 1], buf[pos + 2], buf[pos + 3]])
    }

    fn of_u32(n: u32) -> u32 {
        n
    }

    ghost narrow = { lit≤ tt };

    ghost short = { lit≤ tt };

    ghost into_law = { λ x n h. h };
}
