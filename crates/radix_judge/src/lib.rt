// Whether the lent bytes of a record hold entries, in one walk over its tree and one look at the rest of its pool. What it says is in
// specs/Visit.

#![tactic(auto)]

ghost use Rattle.std.specs.Prelude.{◌≡◌, ◌<◌, length};
ghost use Rattle.octets.specs.Pick.{both};
ghost use Rattle.radix.specs.Record.{is_root, is_tidy};
ghost use Rattle.radix_bytes.specs.Bytes.{record_size, record_from, pool_in};
ghost use Rattle.radix_judge.specs.Visit.{is_sound};

mod free;
mod node;
mod walk;

use free::rest_free;
use node::zero_word;
use radix_bytes::LABELS_AT;
use walk::visit;

// The root's place: no label, no key, no sibling, no value.
fn root_at(s: &[u8], p: usize) -> bool
    requires { (length s.now ≡ record_size) × (p < 256) }
    ensures { result ≡ both (is_root (pool_in s.now) p) (is_tidy (pool_in s.now) p) }
{
    if radix_bytes::len_at(s, p) != 0 {
        return false;
    }
    if radix_bytes::key_at(s, p) != 0 {
        return false;
    }
    if radix_bytes::next_at(s, p) != 0 {
        return false;
    }
    if radix_bytes::value_at(s, p) != 0 {
        return false;
    }
    let at = LABELS_AT + 16 * p;
    if !zero_word(s, at) {
        return false;
    }
    zero_word(s, at + 8)
}

// Whether the bytes hold entries.
pub fn is_sound(s: &[u8]) -> bool
    requires { length s.now ≡ record_size }
    ensures { result ≡ is_sound (record_from s.now) }
{
    let root = radix_bytes::root_of(s);
    if 256 <= root {
        return false;
    }
    if !root_at(s, root) {
        return false;
    }
    let mut marks = [0u8; 256];
    marks[root] = 1;
    let first = radix_bytes::child_at(s, root);
    if visit(s, 256, first, 0, 0, &mut marks).is_none() {
        return false;
    }
    rest_free(s, &marks)
}
