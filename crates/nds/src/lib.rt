//! The texture word and the texture formats: apicula's src/nds/texture_params.rs and texture_formats.rs, and the wrap words.

#![tactic(auto)]

pub mod texture_formats;
pub mod texture_params;
pub mod wrap;
