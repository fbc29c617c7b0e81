// An index inside lent bytes: a record of 6,658 bytes, which may stand in the middle of others. Callers know the entries that the bytes
// hold, `entries_in`, and the operations on entries (crate keys); the record and its places are this crate's own affair. The `_sound`
// functions are for bytes that are known to hold entries: they do not validate the record again.

#![tactic(auto)]

mod change;
mod look;

pub use change::{build, empty, put, put_sound, remove, remove_sound};
pub use look::{
    find, first_at_or_above, first_at_or_above_sound, last_at_or_below, last_at_or_below_sound,
    list,
};
