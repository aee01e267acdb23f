//! The texture formats and their facts.
ghost use Rattle.std.specs.Prelude.{◌≡◌};
ghost use Rattle.nds.specs.Formats as Formats;

/// A texture's format, in GBATEK's terms, and its number. The comments say what a texel stores.
#[derive(Clone, Copy, Debug, PartialEq, Eq)]
pub enum TextureFormat {
    /// There is no texture.
    NoTexture = 0,
    /// A colour number of 5 bits and an alpha of 3.
    A3I5 = 1,
    /// A colour number of 2 bits.
    Palette4 = 2,
    /// A colour number of 4 bits.
    Palette16 = 3,
    /// A colour number of 8 bits.
    Palette256 = 4,
    /// A colour number of 2 bits, among the colours of its block of 4 by 4 texels.
    Compressed = 5,
    /// A colour number of 3 bits and an alpha of 5.
    A5I3 = 6,
    /// A colour of 15 bits and an alpha of 1.
    Direct = 7,
}

/// An alpha kind, and the number that other languages are told for it.
#[derive(Clone, Copy, Debug, PartialEq, Eq)]
pub enum Alpha {
    /// Every texel is solid.
    Opaque = 0,
    /// A texel is solid or clear.
    Transparent = 1,
    /// A texel has any alpha.
    Translucent = 2,
}

impl Alpha {
    #[tactic(auto, unfolding(crate::specs::Formats::alpha_word))]
    pub fn word(self) -> &'static [u8]
        ensures { result.now ≡ Formats.alpha_word self }
    {
        match self {
            Self::Opaque => b"opaque",
            Self::Transparent => b"transparent",
            Self::Translucent => b"translucent",
        }
    }
}

#[derive(Clone, Copy, Debug, PartialEq, Eq)]
pub enum AlphaDesc {
    /// Whatever the word says.
    Always(Alpha),
    /// Transparent where the word has colour 0 clear, else opaque.
    TransparentDependingOnParams,
}

#[derive(Clone, Copy, Debug, PartialEq, Eq)]
pub struct FormatDesc {
    pub requires_palette: bool,
    /// Bits per texel.
    pub bpp: u8,
    pub alpha_desc: AlphaDesc,
}

// Row n is the format of number n. A constant that is an array is put together anew at each use; of a reference there is one.
const DESCS: &[FormatDesc; 8] = &[
    // NoTexture
    FormatDesc {
        requires_palette: false,
        bpp: 0,
        alpha_desc: AlphaDesc::Always(Alpha::Opaque),
    },
    // A3I5
    FormatDesc {
        requires_palette: true,
        bpp: 8,
        alpha_desc: AlphaDesc::Always(Alpha::Translucent),
    },
    // Palette4
    FormatDesc {
        requires_palette: true,
        bpp: 2,
        alpha_desc: AlphaDesc::TransparentDependingOnParams,
    },
    // Palette16
    FormatDesc {
        requires_palette: true,
        bpp: 4,
        alpha_desc: AlphaDesc::TransparentDependingOnParams,
    },
    // Palette256
    FormatDesc {
        requires_palette: true,
        bpp: 8,
        alpha_desc: AlphaDesc::TransparentDependingOnParams,
    },
    // Compressed
    FormatDesc {
        requires_palette: true,
        bpp: 2,
        alpha_desc: AlphaDesc::Always(Alpha::Transparent),
    },
    // A5I3
    FormatDesc {
        requires_palette: true,
        bpp: 8,
        alpha_desc: AlphaDesc::Always(Alpha::Translucent),
    },
    // Direct
    FormatDesc {
        requires_palette: false,
        bpp: 16,
        alpha_desc: AlphaDesc::Always(Alpha::Transparent),
    },
];

impl TextureFormat {
    /// The format's number in a texture word.
    pub fn number(self) -> u8
        ensures { result ≡ Formats.number_of self }
    {
        self as u8
    }

    #[tactic(auto, using(util::proofs::Table::tabulated), unfolding(crate::specs::Formats::desc))]
    pub fn desc(self) -> FormatDesc
        ensures { result ≡ Formats.desc (Formats.number_of self) }
    {
        DESCS[self as usize]
    }
}
