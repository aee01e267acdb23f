//! What the test programs ask of their input and their output: its cases with their numbers and the bytes that they name, the pattern that an
//! output is filled with, and a sum of bytes.

#![tactic(auto)]

ghost use Rattle.std.specs.Prelude.{◌≡◌, ℕ, ◌<◌, length, get_or};
ghost use Rattle.cases.specs.Cases.{field_of, named_by, IsCase, CalledAtCases, pattern_at, added, added_all};

use cursor::part_at;
use util::cur::peek;

/// The number of 4 bytes at pos, or 0 where there is none.
#[tactic(auto, using(crate::proofs::Laws::field_got))]
pub fn field(bytes: &[u8], pos: usize) -> u32
    ensures { result ≡ field_of pos bytes.now }
{
    peek::<u32>(bytes, pos).unwrap_or(0)
}

/// A case: its numbers, and the input that has the bytes that it names.
#[derive(Clone, Copy)]
pub struct Case<'a> {
    pub input: &'a [u8],
    pub numbers: &'a [u8],
}

impl<'a> Case<'a> {
    /// The input's case n, counted from 0. The cases have len bytes each, and stand behind a number of 4 bytes, which counts them.
    pub fn nth(input: &'a [u8], len: u32, n: u32) -> Case<'a>
        ensures { IsCase len n input.now result }
    {
        let numbers = part_at(input, 4 + len as usize * n as usize, len as usize);
        Case { input, numbers }
    }

    /// The case's number at `at`, or 0 where there is none.
    pub fn field(self, at: usize) -> u32
        ensures { result ≡ field_of at self.entry.numbers.now }
    {
        field(self.numbers, at)
    }

    /// The bytes of the input that the case names: their position stands in the case at `at`, and their length behind it.
    pub fn named(self, at: u32) -> &'a [u8]
        ensures { result.now ≡ named_by at self.entry.numbers.now self.entry.input.now }
    {
        let pos = self.field(at as usize);
        let len = self.field(at as usize + 4);
        part_at(self.input, pos as usize, len as usize)
    }
}

/// Calls `show` at each case of the input, in order. The input begins with the number of cases, and a case has len bytes.
pub fn each_case<F: FnMut(Case)>(input: &[u8], len: u32, mut show: F)
    requires { F.IsAlwaysCallable show }
    ensures { (last : F) × CalledAtCases (λ from case to. F.step from case tt to) len input.now (field_of 0 input.now) show last }
{
    for n in 0..field(input, 0) {
        show(Case::nth(input, len, n));
    }
}

/// Fills the output with bytes that tell their places, none of them 0.
pub fn fill(out: &mut [u8])
    ensures { (k : ℕ) → k < length out.old → get_or out.new k 0 ≡ pattern_at k }
{
    for (i, b) in out.iter_mut().enumerate() {
        *b = (1 + i % 251) as u8;
    }
}

/// An output of N bytes that is filled so.
pub fn filled<const N: usize>() -> [u8; N]
    ensures { (k : ℕ) → k < N → get_or result k 0 ≡ pattern_at k }
{
    let mut out = [0; N];
    fill(&mut out);
    out
}

/// A sum of numbers. It depends on each number and on its place.
#[derive(Clone, Copy, Debug, PartialEq, Eq)]
pub struct Sum(pub u64);

impl Sum {
    /// The sum of no numbers.
    pub fn new() -> Sum
        ensures { result.0 ≡ 1 }
    {
        Sum(1)
    }

    /// Adds a number.
    pub fn add(&mut self, x: u64)
        ensures { self.new.0 ≡ added self.old.0 x }
    {
        self.0 = (31 * (self.0 % 65521) + x % 65521) % 65521;
    }

    // Adds four bytes. It takes two remainders, where adding one after the other would take two for each.
    #[tactic(auto, using(crate::proofs::Laws::four))]
    fn add_four(&mut self, a: u8, b: u8, c: u8, d: u8)
        ensures { self.new.0 ≡ added (added (added (added self.old.0 a) b) c) d }
    {
        let two = 31 * (31 * (self.0 % 65521) + u64::from(a)) + u64::from(b);
        self.0 = (31 * (31 * two + u64::from(c)) + u64::from(d)) % 65521;
    }

    /// Adds each byte. An output has thousands, so it takes four at a time, and those that are left one by one.
    pub fn add_all(&mut self, bytes: &[u8])
        ensures { self.new.0 ≡ added_all self.old.0 bytes.now }
    {
        let mut rest = bytes;
        while let [a, b, c, d, later @ ..] = rest {
            self.add_four(*a, *b, *c, *d);
            rest = later;
        }
        for b in rest {
            self.add(u64::from(*b));
        }
    }
}
