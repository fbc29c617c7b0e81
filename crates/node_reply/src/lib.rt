// A message of a node in a slot that is in order, written as an entry of a range reply (02, CR 4). Which bytes they are is said in the
// crate resp, specs/Reply.

#![tactic(auto)]

mod entry;
mod id_text;
mod strings;

pub use entry::{entry_size, write_entry};
pub use strings::strings_size;
