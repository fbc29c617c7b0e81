// The neighbours of a key in a record that is known to hold entries.

#![tactic(auto)]

mod adjoining;

pub use adjoining::{first_at_or_above_sound, last_at_or_below_sound};
