//! Bit fields, little-endian numbers and takes: of apicula's src/util all but the cursor, which is a crate of its own.

#![tactic(auto)]

pub mod bits;
pub mod cur;
pub mod unsigned;
