//! Blocks: apicula's src/nitro/tex.rs, the reading of a TEX0 block, and its records and data parts.

#![tactic(auto)]

pub mod tex;
