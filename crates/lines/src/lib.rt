//! The lines of a listing: a texture's and a palette's record as text, put into an output. The caller shows that there is room.

#![tactic(auto)]

ghost use Rattle.std.specs.Prelude.{◌++◌, ◌≡◌};
ghost use Rattle.name.specs.Name.{safe_text};
ghost use Rattle.text.specs.Writer.{HasRoom, Adds};
ghost use Rattle.lines.specs.Lines as Lines;

use name::Name;
use nitro::tex::{PaletteRecord, TextureRecord};
use text::Writer;

// A name in letters, digits and underscores, and the space or line end behind it. There is room for the text, so it is never refused.
#[tactic(auto, using(text::proofs::Puts::whole, text::proofs::Puts::puts))]
fn put_name(writer: &mut Writer<'_>, name: Name, end: &[u8])
    requires { HasRoom (safe_text name.0 ++ end.now) writer.old }
    ensures { Adds (safe_text name.0 ++ end.now) writer.old writer.new }
{
    let len = name.print_safe(&mut writer.out[writer.at..]).unwrap();
    writer.at += len;
    writer.put(end);
}

/// The line of texture n.
#[tactic(auto, using(text::proofs::Puts::puts), unfolding(text::specs::Text::line, text::specs::Text::ascii, crate::specs::Lines::texture_line))]
pub fn put_texture(writer: &mut Writer<'_>, n: usize, texture: TextureRecord)
    requires { HasRoom (Lines.texture_line n texture) writer.old }
    ensures { Adds (Lines.texture_line n texture) writer.old writer.new }
{
    let params = texture.params;
    writer.put_number(n, b" ");
    put_name(writer, texture.name, b" ");
    writer.put_number(usize::from(params.format().number()), b" ");
    writer.put_number(params.width() as usize, b" ");
    writer.put_number(params.height() as usize, b" ");
    writer.put_field(texture.wrap_s.word(), b" ");
    writer.put_field(texture.wrap_t.word(), b" ");
    writer.put_field(texture.alpha.word(), b"\n");
}

/// The line of palette n.
#[tactic(auto, using(text::proofs::Puts::puts), unfolding(text::specs::Text::line, text::specs::Text::ascii, crate::specs::Lines::palette_line))]
pub fn put_palette(writer: &mut Writer<'_>, n: usize, palette: PaletteRecord)
    requires { HasRoom (Lines.palette_line n palette) writer.old }
    ensures { Adds (Lines.palette_line n palette) writer.old writer.new }
{
    writer.put_number(n, b" ");
    put_name(writer, palette.name, b" ");
    writer.put_number(palette.off as usize, b"\n");
}
