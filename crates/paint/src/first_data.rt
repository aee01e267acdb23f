//! First data of texels that have a fixed number of bits each.
ghost use Rattle.std.specs.Prelude.{◌*◌, ◌≤◌, length};

/// The data of `num_texels` texels of BITS bits each. Behind them there may be more bytes.
#[derive(Clone, Copy)]
pub struct FirstData<'a, const BITS: usize> {
    pub bytes: &'a [u8],
    pub num_texels: usize,
    pub ghost there: { num_texels * BITS ≤ 8 * length bytes.now },
}
