// The groups area of the state, 57,760 lent bytes: eight regions, groups by rising name, free regions last. The bytes are said in
// specs/Area of the crate groups, what each function answers in specs/Answer.

#![tactic(auto)]

// The definitions of specs/Area of the crate groups: most_groups and area_size.
pub const MOST_GROUPS: usize = 8;

pub const AREA_BYTES: usize = 57760;

mod changing;
mod finding;
mod judging;

pub use changing::{create, destroy};
pub use finding::find;
pub use judging::judge;
