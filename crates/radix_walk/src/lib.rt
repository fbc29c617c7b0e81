// Walks down the tree of a record of the crate radix to the two neighbours of a key. None validates the record, and each ends on any record.
// What they answer is said in specs/ and in the crate radix, specs/Walk.

#![tactic(auto)]

mod near;

pub use near::{first_from, last_from};
