//! The calls for C that say what a texture word says. No call is declined.

#![tactic(auto)]

ghost use Rattle.std.specs.Prelude.{◌≡◌};
ghost use Rattle.nds.specs.Formats as Formats;
ghost use Rattle.nds.specs.Params as Params;
ghost use Rattle.nds.specs.Wrap.{wrap_of};
ghost use Rattle.told.specs.Told as Told;

use nds::texture_params::TextureParams;
use told::{alpha_number, wrap_number};

/// In bytes.
#[unsafe(no_mangle)]
pub extern "C" fn rasclanya_offset(word: u32) -> u32
    ensures { result ≡ Params.offset word }
{
    TextureParams(word).offset()
}

#[unsafe(no_mangle)]
pub extern "C" fn rasclanya_repeat_s(word: u32) -> bool
    ensures { result ≡ Params.repeat_s word }
{
    TextureParams(word).repeat_s()
}

#[unsafe(no_mangle)]
pub extern "C" fn rasclanya_repeat_t(word: u32) -> bool
    ensures { result ≡ Params.repeat_t word }
{
    TextureParams(word).repeat_t()
}

#[unsafe(no_mangle)]
pub extern "C" fn rasclanya_mirror_s(word: u32) -> bool
    ensures { result ≡ Params.mirror_s word }
{
    TextureParams(word).mirror_s()
}

#[unsafe(no_mangle)]
pub extern "C" fn rasclanya_mirror_t(word: u32) -> bool
    ensures { result ≡ Params.mirror_t word }
{
    TextureParams(word).mirror_t()
}

/// In texels.
#[unsafe(no_mangle)]
pub extern "C" fn rasclanya_width(word: u32) -> u32
    ensures { result ≡ Params.width word }
{
    TextureParams(word).width()
}

/// In texels.
#[unsafe(no_mangle)]
pub extern "C" fn rasclanya_height(word: u32) -> u32
    ensures { result ≡ Params.height word }
{
    TextureParams(word).height()
}

#[unsafe(no_mangle)]
pub extern "C" fn rasclanya_format(word: u32) -> u8
    ensures { result ≡ Params.format word }
{
    TextureParams(word).format().number()
}

#[unsafe(no_mangle)]
pub extern "C" fn rasclanya_is_color0_transparent(word: u32) -> bool
    ensures { result ≡ Params.color0_transparent word }
{
    TextureParams(word).is_color0_transparent()
}

#[unsafe(no_mangle)]
pub extern "C" fn rasclanya_texcoord_transform_mode(word: u32) -> u8
    ensures { result ≡ Params.transform_mode word }
{
    TextureParams(word).texcoord_transform_mode()
}

/// 0 for clamp, 1 for repeat, 2 for mirror.
#[unsafe(no_mangle)]
pub extern "C" fn rasclanya_wrap_s(word: u32) -> u32
    ensures { result ≡ Told.wrap_number (wrap_of (Params.repeat_s word) (Params.mirror_s word)) }
{
    wrap_number(TextureParams(word).wrap_s())
}

/// 0 for clamp, 1 for repeat, 2 for mirror.
#[unsafe(no_mangle)]
pub extern "C" fn rasclanya_wrap_t(word: u32) -> u32
    ensures { result ≡ Told.wrap_number (wrap_of (Params.repeat_t word) (Params.mirror_t word)) }
{
    wrap_number(TextureParams(word).wrap_t())
}

/// 0 for opaque, 1 for transparent, 2 for translucent.
#[unsafe(no_mangle)]
pub extern "C" fn rasclanya_alpha_type(word: u32) -> u32
    ensures { result ≡ Told.alpha_number (Formats.alpha word) }
{
    alpha_number(TextureParams(word).alpha_type())
}

/// The length of the texture's data, of a block-compressed texture's first data, in bytes.
#[unsafe(no_mangle)]
pub extern "C" fn rasclanya_byte_len(word: u32) -> usize
    ensures { result ≡ Formats.data_length word }
{
    TextureParams(word).byte_len()
}

/// The length of a block-compressed texture's second data, in bytes. Other textures have none.
#[unsafe(no_mangle)]
pub extern "C" fn rasclanya_byte_len2(word: u32) -> usize
    ensures { result ≡ Formats.second_length word }
{
    TextureParams(word).byte_len2()
}
