//! The calls for C that read a block: counts, records and the listing.
//!
//! A slice is a pointer and a length. A call returns 0, or where it is declined the number of the refusal in document 01's table. What it
//! answers beside that goes to numbers and slices that it is lent, and a call that is declined leaves those as they were. A call that takes a
//! block also tells the length that a short block needs, and 0 where the block is not short.

#![tactic(auto)]

pub mod list;
pub mod tex;
