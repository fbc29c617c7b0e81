// Operations that only read the bytes.

ghost use Rattle.std.specs.Prelude.{◌≡◌, length};
ghost use Rattle.keys.specs.Operation.{find, first_at_or_above, last_at_or_below, reply_in, value_reply};
ghost use Rattle.keys.specs.Answer.{reply_of, neighbour_of};
ghost use Rattle.keys.specs.Listing.{Lists, IsSound};
ghost use Rattle.index_bytes.specs.Held.{record_size, entries_in};

use keys::{Neighbour, Refusal, Table, is_key};

// All entries, in order: one validation of the whole record.
pub fn list(bytes: &[u8]) -> Option<Table>
    requires { length bytes.now ≡ record_size }
    ensures { Lists (entries_in bytes.now) result }
{
    radix_rows::list(bytes)
}

// The value of a key, if it is held. Refusals in rising order of their numbers: 2, then 3.
pub fn find(bytes: &[u8], key: &[u8]) -> Result<Option<u32>, Refusal>
    requires { length bytes.now ≡ record_size }
    ensures { reply_of value_reply result ≡ reply_in (find key.now) (entries_in bytes.now) }
{
    if !radix_judge::is_sound(bytes) {
        return Err(Refusal::Damaged);
    }
    if !is_key(key) {
        return Err(Refusal::BadKey);
    }
    let root = radix_bytes::root_of(bytes);
    let first = radix_bytes::child_at(bytes, root);
    Ok(radix_find::find_from(bytes, first, key))
}

pub fn first_at_or_above(bytes: &[u8], key: &[u8]) -> Result<Option<Neighbour>, Refusal>
    requires { length bytes.now ≡ record_size }
    ensures { result ≡ neighbour_of (reply_in (first_at_or_above key.now) (entries_in bytes.now)) }
{
    if !radix_judge::is_sound(bytes) {
        return Err(Refusal::Damaged);
    }
    first_at_or_above_sound(bytes, key)
}

pub fn last_at_or_below(bytes: &[u8], key: &[u8]) -> Result<Option<Neighbour>, Refusal>
    requires { length bytes.now ≡ record_size }
    ensures { result ≡ neighbour_of (reply_in (last_at_or_below key.now) (entries_in bytes.now)) }
{
    if !radix_judge::is_sound(bytes) {
        return Err(Refusal::Damaged);
    }
    last_at_or_below_sound(bytes, key)
}

pub fn first_at_or_above_sound(bytes: &[u8], key: &[u8]) -> Result<Option<Neighbour>, Refusal>
    requires { (length bytes.now ≡ record_size) × IsSound (entries_in bytes.now) }
    ensures { result ≡ neighbour_of (reply_in (first_at_or_above key.now) (entries_in bytes.now)) }
{
    index_neighbours::first_at_or_above_sound(bytes, key)
}

pub fn last_at_or_below_sound(bytes: &[u8], key: &[u8]) -> Result<Option<Neighbour>, Refusal>
    requires { (length bytes.now ≡ record_size) × IsSound (entries_in bytes.now) }
    ensures { result ≡ neighbour_of (reply_in (last_at_or_below key.now) (entries_in bytes.now)) }
{
    index_neighbours::last_at_or_below_sound(bytes, key)
}
