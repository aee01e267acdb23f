//! What the picture program shows of a file: its image, or why there is none.

#![tactic(auto)]

ghost use Rattle.std.specs.Prelude.{◌≡◌, ◌≤◌, length, IfOk, Some};
ghost use Rattle.show.specs.Display.{unshown_text};
ghost use Rattle.show.specs.Show.{shown, shown_of, shown_output};
ghost use Rattle.show.specs.declared.Unshown.TheVariants.{Refused};

use errors::Refusal;
use pam::pam;
use std::fmt;

/// The longest file that is read, in bytes: 3 MiB.
pub const MAX_BLOCK: usize = 3145728;

/// No image is longer than this, in bytes: a header of 71 bytes, and 4 for each of 1024 times 1024 texels.
pub const MAX_PAM: usize = 4194375;

/// Why no image is shown of a file.
#[derive(Clone, Copy, Debug, PartialEq, Eq)]
pub enum Unshown {
    Refused(Refusal),
    /// The file is too long to be read.
    TooLong,
}

impl From<Refusal> for Unshown {
    ghost from_gives = { λ refusal unshown. unshown ≡ Refused refusal };

    fn from(refusal: Refusal) -> Unshown {
        Unshown::Refused(refusal)
    }
}

// A refusal is told as it displays itself.
impl fmt::Display for Unshown {
    ghost output = { λ unshown. Some (unshown_text unshown) };

    fn fmt<W: fmt::Write>(&self, f: &mut fmt::Formatter<W>) -> fmt::Result {
        match self {
            Self::Refused(refusal) => write!(f, "{refusal}"),
            Self::TooLong => write!(f, "the file has more than {MAX_BLOCK} bytes"),
        }
    }
}

/// Writes the picture of texture n with the chosen palette as a PAM image to an output that has room for every image. A file that is refused
/// or too long leaves every byte of the output as it was.
#[tactic(auto, using(pam::proofs::Bounds::pam_fits), unfolding(output::specs::Output::write_outcome, output::specs::Output::write_output, crate::specs::Show::shown_of, crate::specs::Show::shown_output))]
pub fn show(
    file: &[u8],
    n: usize,
    choice: Option<usize>,
    out: &mut [u8; MAX_PAM],
) -> Result<usize, Unshown>
    ensures value { shown result ≡ shown_of file.now n choice }
    ensures out_after { out.new ≡ shown_output file.now n choice out.old }
    ensures in_bounds { IfOk result (λ len. len ≤ length out.new) }
{
    if MAX_BLOCK < file.len() {
        return Err(Unshown::TooLong);
    }
    Ok(pam(file, n, choice, out)?)
}
