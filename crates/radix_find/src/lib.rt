// The walk of a key down the tree of a record in lent bytes. It does not judge the record, and ends on any bytes.

#![tactic(auto)]

ghost use Rattle.std.specs.Prelude.{◌≡◌, ◌+◌, ◌<◌, ◌≤◌, length, drop};
ghost use Rattle.octets.specs.Place.{area};
ghost use Rattle.radix.specs.Shape.{starts_with};
ghost use Rattle.radix.specs.Record.{value_of, tree_at};
ghost use Rattle.radix.specs.Walk.{find_in};
ghost use Rattle.radix_bytes.specs.Bytes.{record_size, pool_in};

use radix_bytes::LABELS_AT;

// Whether the n bytes of a label start what is left of the key from i on.
fn starts(s: &[u8], at: usize, n: usize, k: &[u8], i: usize) -> bool
    requires { (at + n ≤ length s.now) × (i ≤ length k.now) }
    ensures { result ≡ starts_with (area at n s.now) (drop i k.now) }
{
    for j in 0..n {
        if k.len() - i <= j {
            return false;
        }
        if s[at + j] != k[i + j] {
            return false;
        }
    }
    true
}

// The value of a key node.
fn own(s: &[u8], p: usize) -> Option<u32>
    requires { (length s.now ≡ record_size) × (p < 256) }
    ensures { result ≡ value_of (pool_in s.now) p }
{
    if radix_bytes::key_at(s, p) == 0 {
        return None;
    }
    Some(radix_bytes::value_at(s, p))
}

// From the link `first`, and down at most 256 nodes: each step follows a link that it reads.
pub fn find_from(s: &[u8], first: usize, k: &[u8]) -> Option<u32>
    requires { length s.now ≡ record_size }
    ensures { result ≡ find_in (tree_at 256 (pool_in s.now) first) k.now }
{
    let mut at = first;
    let mut i = 0;
    let mut left: usize = 256;
    while radix::leads(left, at) {
        let p = at - 1;
        let n = radix_bytes::label_len(s, p);
        left -= 1;
        if starts(s, LABELS_AT + 16 * p, n, k, i) {
            i += n;
            if k.len() <= i {
                return own(s, p);
            }
            at = radix_bytes::child_at(s, p);
        } else {
            at = radix_bytes::next_at(s, p);
        }
    }
    None
}
