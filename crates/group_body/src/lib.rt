// The body of a group in a snapshot: its size, written from a region, strictly read into a region. The bytes are said in specs/Bytes
// of the crate groups, what is read of them in specs/Parse there, what each function answers in specs/Answer.

#![tactic(auto)]

mod checking;
mod reading;
mod writing;

pub use checking::check_body;
pub use reading::fill_region;
pub use writing::{body_size, write_body};
