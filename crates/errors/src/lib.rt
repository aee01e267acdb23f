//! Why a call is declined: rows of document 01's table.

#![tactic(auto)]

ghost use Rattle.std.specs.Prelude.{◌≡◌, Some};
ghost use Rattle.errors.specs.Refusal.{refusal_needed, refusal_number, refusal_returned};
ghost use Rattle.errors.specs.Display.{refusal_text};

use std::fmt;

/// Which of a block's two name lists.
#[derive(Clone, Copy, Debug, PartialEq, Eq)]
pub enum Kind {
    Texture,
    Palette,
}

#[derive(Clone, Copy, Debug, PartialEq, Eq)]
pub enum Refusal {
    /// The block is too short. At this length the take that failed passes: what document 01 calls the want.
    Short(usize),
    /// The block does not begin with TEX0.
    Stamp,
    /// A list's dummy is not 0.
    Dummy(Kind),
    /// A list's datum size is not its kind's.
    DatumSize(Kind),
    /// A texture's or palette's number is not below the count.
    Number(Kind),
    /// The texture's format needs a palette, and none was chosen.
    NoPalette,
    /// The texture has format 0, which has no texels.
    NoTexels,
    /// The output is shorter than what is to be written.
    Output,
    /// The texture's data are shorter than its word says.
    ShortData,
}

impl Refusal {
    /// The number of the refusal's row in document 01's table.
    pub fn number(self) -> usize
        ensures { result ≡ refusal_number self }
    {
        match self {
            Refusal::Short(_) => 1,
            Refusal::Stamp => 2,
            Refusal::Dummy(Kind::Texture) => 3,
            Refusal::DatumSize(Kind::Texture) => 4,
            Refusal::Dummy(Kind::Palette) => 5,
            Refusal::DatumSize(Kind::Palette) => 6,
            Refusal::Number(Kind::Texture) => 7,
            Refusal::Number(Kind::Palette) => 8,
            Refusal::NoPalette => 9,
            Refusal::NoTexels => 10,
            Refusal::Output => 11,
            Refusal::ShortData => 12,
        }
    }

    /// The needed length of a short block.
    pub fn needed(self) -> Option<usize>
        ensures { result ≡ refusal_needed self }
    {
        match self {
            Refusal::Short(needed) => Some(needed),
            _ => None,
        }
    }

    /// What is returned beside the number: the needed length of a short block, and else 0.
    pub fn returned(self) -> usize
        ensures { result ≡ refusal_returned self }
    {
        self.needed().unwrap_or(0)
    }
}

// The listing's line of a refusal, without the line's end.
impl fmt::Display for Refusal {
    ghost output = { λ refusal. Some (refusal_text refusal) };

    fn fmt<W: fmt::Write>(&self, f: &mut fmt::Formatter<W>) -> fmt::Result {
        write!(f, "refused {} {}", self.number(), self.returned())
    }
}
