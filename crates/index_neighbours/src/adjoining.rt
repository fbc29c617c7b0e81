// The first key at or above a key, and the last at or below it.

ghost use Rattle.std.specs.Prelude.{◌≡◌, length};
ghost use Rattle.keys.specs.Operation.{first_at_or_above, last_at_or_below, reply_in};
ghost use Rattle.radix.specs.Record.{entries_of};
ghost use Rattle.radix_bytes.specs.Bytes.{record_size, record_from};
ghost use Rattle.keys.specs.Answer.{neighbour_of};
ghost use Rattle.keys.specs.Listing.{IsSound};

use keys::{Neighbour, Refusal, is_key};

// For a record that is known to hold entries.
pub fn first_at_or_above_sound(s: &[u8], k: &[u8]) -> Result<Option<Neighbour>, Refusal>
    requires { (length s.now ≡ record_size) × IsSound (entries_of (record_from s.now)) }
    ensures { result ≡ neighbour_of (reply_in (first_at_or_above k.now) (entries_of (record_from s.now))) }
{
    if !is_key(k) {
        return Err(Refusal::BadKey);
    }
    let root = radix_bytes::root_of(s);
    let first = radix_bytes::child_at(s, root);
    Ok(radix_walk::first_from(s, first, k))
}

pub fn last_at_or_below_sound(s: &[u8], k: &[u8]) -> Result<Option<Neighbour>, Refusal>
    requires { (length s.now ≡ record_size) × IsSound (entries_of (record_from s.now)) }
    ensures { result ≡ neighbour_of (reply_in (last_at_or_below k.now) (entries_of (record_from s.now))) }
{
    if !is_key(k) {
        return Err(Refusal::BadKey);
    }
    let root = radix_bytes::root_of(s);
    let first = radix_bytes::child_at(s, root);
    Ok(radix_walk::last_from(s, first, k))
}
