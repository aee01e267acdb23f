//! Names: 16 bytes, padded with zeros.

#![tactic(auto)]

ghost use Rattle.std.specs.Prelude.{◌≡◌, ◌≤◌, length, map, reverse, eqb, encode_utf8};
ghost use Rattle.std.specs.List.{prefix_len};
ghost use Rattle.util.specs.Outcome.{result as answered};
ghost use Rattle.output.specs.Output.{Writes};
ghost use Rattle.errors.specs.Refusal.{result_outcome};
ghost use Rattle.text.specs.Writer.{HasRoom, Adds};
ghost use Rattle.name.specs.Name as Text;

use errors::Refusal;
use text::{Writer, write};

#[derive(Clone, Copy, Debug, PartialEq, Eq)]
pub struct Name(pub [u8; 16]);

// A letter or digit as it is, and an underscore for any other byte.
fn safe_byte(b: u8) -> u8
    ensures { result ≡ Text.safe_byte b }
{
    if b.is_ascii_alphanumeric() { b } else { b'_' }
}

// The character that display writes for b.
#[tactic(auto, unfolding(std::specs::Prelude::encode_utf8, crate::specs::Name::display_byte))]
fn display_char(b: u8) -> char
    ensures { encode_utf8 result ≡ Text.display_byte b }
{
    if b < 0x20 { '.' } else { char::from(b) }
}

// Puts that character's UTF-8, which of a character of ASCII is its number alone.
#[tactic(auto, using(std::proofs::lemmas::Str::encode_ascii))]
fn put_character(writer: &mut Writer<'_>, b: u8)
    requires { HasRoom (Text.display_byte b) writer.old }
    ensures { Adds (Text.display_byte b) writer.old writer.new }
{
    let shown = display_char(b);
    if shown.is_ascii() {
        writer.put(&[shown as u8]);
    } else {
        let mut character = [0; 4];
        writer.put(shown.encode_utf8(&mut character).as_bytes());
    }
}

impl Name {
    // How many zeros are at the end.
    fn trailing_zeros(self) -> usize
        ensures value { result ≡ prefix_len (λ b. eqb b 0) (reverse self.0) }
        ensures upper_bound { result ≤ 16 }
    {
        self.0.iter().rev().take_while(|&&b| b == 0).count()
    }

    // The length without them.
    #[tactic(auto, using(crate::proofs::Texts::zeros_trimmed))]
    fn trimmed_len(self) -> usize
        ensures value { result ≡ length (Text.trimmed self.0) }
        ensures upper_bound { result ≤ 16 }
    {
        16 - self.trailing_zeros()
    }

    // Each byte as a letter or digit, or an underscore.
    #[tactic(auto, using(std::proofs::lemmas::List::Edits::map_over_more))]
    fn safe_bytes(self) -> [u8; 16]
        ensures { result ≡ map Text.safe_byte self.0 }
    {
        let mut bytes = self.0;
        for b in &mut bytes {
            *b = safe_byte(*b);
        }
        bytes
    }

    /// Writes the name as letters, digits and underscores, of which there is at least one: where no byte stays, the first zero is written.
    #[tactic(auto, using(crate::proofs::Texts::safe_taken))]
    pub fn print_safe(self, out: &mut [u8]) -> Result<usize, Refusal>
        ensures { Writes (answered (Text.safe_text self.0)) out.old (result_outcome result) out.new }
    {
        let text = self.safe_bytes();
        let len = self.trimmed_len().max(1);
        write(&text[..len], out)
    }

    /// Writes the name in UTF-8, each byte as the character of that number, with a period for each byte below 20 hex.
    #[tactic(auto, using(crate::proofs::Texts::each_shown), unfolding(crate::specs::Name::display_text))]
    pub fn display(self, out: &mut [u8]) -> Result<usize, Refusal>
        ensures { Writes (answered (Text.display_text self.0)) out.old (result_outcome result) out.new }
    {
        let mut text = [0; 32];
        let mut writer = Writer::new(&mut text);
        for b in &self.0[..self.trimmed_len()] {
            put_character(&mut writer, *b);
        }
        let len = writer.at;
        write(&text[..len], out)
    }
}
