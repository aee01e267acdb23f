//! The line of text that tells of a refusal.

#![tactic(auto)]

ghost use Rattle.io.specs.Counts.{IsPrefixLen};
ghost use Rattle.util.specs.Outcome.{result as answered};
ghost use Rattle.output.specs.Output.{Writes};
ghost use Rattle.text.specs.Writer.{HasRoom, Adds};
ghost use Rattle.refused.specs.Refused.{refused_line};

use text::Writer;

/// No line of a refusal is longer than this, in bytes: the word, two numbers of 20 digits, two spaces and the line's end.
pub const MAX_REFUSED: usize = 50;

/// The line of a refusal: its number and the value returned beside it. The caller shows that there is room.
#[tactic(auto, using(text::proofs::Puts::puts), unfolding(text::specs::Text::line, text::specs::Text::ascii, crate::specs::Refused::refused_line))]
pub fn put_refused(writer: &mut Writer<'_>, number: usize, returned: usize)
    requires { HasRoom (refused_line number returned) writer.old }
    ensures { Adds (refused_line number returned) writer.old writer.new }
{
    writer.put_field(b"refused", b" ");
    writer.put_number(number, b" ");
    writer.put_number(returned, b"\n");
}

/// Writes the line to an output that has room for every such line, and returns its length in bytes.
#[tactic(auto, using(crate::proofs::Lengths::refused_length, text::proofs::Puts::whole))]
pub fn write_refused(number: usize, returned: usize, out: &mut [u8; MAX_REFUSED]) -> usize
    ensures value { Writes (answered (refused_line number returned)) out.old (answered result) out.new }
    ensures in_bounds { IsPrefixLen result out.new }
{
    let mut writer = Writer::new(out);
    put_refused(&mut writer, number, returned);
    writer.at
}
