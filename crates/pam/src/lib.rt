//! A picture of a TEX0 block as a PAM image: Netpbm's format for pictures with alpha, which stock viewers and converters read.

#![tactic(auto)]

ghost use Rattle.std.specs.Prelude.{◌≡◌, ◌≤◌, length};
ghost use Rattle.output.specs.Output.{Writes};
ghost use Rattle.errors.specs.Refusal.{result_outcome};
ghost use Rattle.scripts.specs.Script.{run};
ghost use Rattle.reading.specs.Tex.{read_tex};
ghost use Rattle.places.specs.Sources.{sources_at};
ghost use Rattle.text.specs.Text.{decimal};
ghost use Rattle.text.specs.Writer.{HasRoom, Adds};
ghost use Rattle.pam.specs.Pam as Pam;

use decode::picture::picture_at;
use errors::Refusal;
use nds::texture_params::TextureParams;
use places::{Places, locate};
use text::Writer;

// The lines behind the height, which every header has.
#[tactic(auto, unfolding(text::specs::Text::ascii, text::specs::Text::decimal_below, text::specs::Text::decimal, text::specs::Text::line, crate::specs::Pam::last_lines))]
fn last_lines() -> &'static [u8]
    ensures { result.now ≡ Pam.last_lines }
{
    b"DEPTH 4\nMAXVAL 255\nTUPLTYPE RGB_ALPHA\nENDHDR\n"
}

// The header of a picture of the word's size.
#[tactic(auto, using(text::proofs::Puts::puts), unfolding(text::specs::Text::ascii, text::specs::Text::line, crate::specs::Pam::header_text))]
fn put_header(writer: &mut Writer<'_>, params: TextureParams)
    requires { HasRoom (Pam.header_text params.0) writer.old }
    ensures { Adds (Pam.header_text params.0) writer.old writer.new }
{
    writer.put(b"P7\nWIDTH ");
    writer.put_number(params.width() as usize, b"\nHEIGHT ");
    writer.put_number(params.height() as usize, b"\n");
    writer.put(last_lines());
}

// How many digits a number has.
#[tactic(auto, using(crate::proofs::Headers::digits_of_none, crate::proofs::Headers::digits_by_power))]
fn digit_count(n: usize) -> usize
    ensures value { result ≡ length (decimal n) }
    ensures upper_bound { result ≤ 20 }
{
    n.checked_ilog10().map_or(1, |log| log as usize + 1)
}

// The header's length: 63 bytes, and the digits of the width and of the height.
#[tactic(auto, using(crate::proofs::Headers::header_length))]
fn header_len(params: TextureParams) -> usize
    ensures { result ≡ length (Pam.header_text params.0) }
{
    63 + digit_count(params.width() as usize) + digit_count(params.height() as usize)
}

// Decodes the picture to its place behind the header, and puts the header before it. An output that has no room for the header has none for a
// picture behind it.
#[tactic(auto, using(crate::proofs::Images::images), unfolding(output::specs::Output::write_outcome, output::specs::Output::write_output))]
fn image_at(block: &[u8], places: Places, out: &mut [u8]) -> Result<usize, Refusal>
    ensures { Writes (Pam.image_of (sources_at block.now places)) out.old (result_outcome result) out.new }
{
    let at = header_len(places.params).min(out.len());
    let len = picture_at(block, places, &mut out[at..])?;
    let mut writer = Writer::new(out);
    put_header(&mut writer, places.params);
    Ok(writer.at + len)
}

/// Writes the picture of texture n with the chosen palette to the output as a PAM image, and returns the image's length in bytes.
#[tactic(auto, using(crate::proofs::Images::located), unfolding(output::specs::Output::write_outcome, output::specs::Output::write_output))]
pub fn pam(block: &[u8], n: usize, choice: Option<usize>, out: &mut [u8]) -> Result<usize, Refusal>
    ensures { Writes (Pam.pam_of n choice (run read_tex block.now)) out.old (result_outcome result) out.new }
{
    image_at(block, locate(block, n, choice)?, out)
}
