//! Wrap words: what a texture does beyond its edges, along one axis.
ghost use Rattle.std.specs.Prelude.{◌≡◌};
ghost use Rattle.nds.specs.Wrap.{wrap_of, wrap_word};

/// A wrap word, and the number that other languages are told for it.
#[derive(Clone, Copy, Debug, PartialEq, Eq)]
pub enum Wrap {
    Clamp = 0,
    Repeat = 1,
    Mirror = 2,
}

impl Wrap {
    #[tactic(auto, unfolding(crate::specs::Wrap::wrap_word))]
    pub fn word(self) -> &'static [u8]
        ensures { result.now ≡ wrap_word self }
    {
        match self {
            Self::Clamp => b"clamp",
            Self::Repeat => b"repeat",
            Self::Mirror => b"mirror",
        }
    }
}

/// The wrap word of an axis, by its repeat bit and its mirror bit.
pub fn wrap_axis(repeat: bool, mirror: bool) -> Wrap
    ensures { result ≡ wrap_of repeat mirror }
{
    if mirror {
        Wrap::Mirror
    } else if repeat {
        Wrap::Repeat
    } else {
        Wrap::Clamp
    }
}
