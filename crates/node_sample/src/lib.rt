// What an entry of a node holds in the first pair of a name, as it counts in a report. The value is read where it lies; where a name stands
// among the master's names is found once for a node.

#![tactic(auto)]

mod entry;
mod name;
mod value;

pub use entry::{Sampled, read_entry};
pub use name::{Asked, ask};
pub use value::{BOUND, Sample};
