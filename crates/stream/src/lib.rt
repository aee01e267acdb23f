//! Fetching: a reading or a picture of a whole block, lent no more of it than an answer before has asked for. What an answer on the first bytes tells
//! of the whole block is said by specs/Prefix.antt of the crate laws.

#![tactic(auto)]

mod fetch;
pub mod fetch_picture;
pub mod fetch_tex;

pub use fetch::Fetched;
