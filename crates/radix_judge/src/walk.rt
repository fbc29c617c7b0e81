// The walk over the tree.

ghost use Rattle.std.specs.Prelude.{true, ◌≡◌, ◌≤◌, length};
ghost use Rattle.radix_bytes.specs.Bytes.{record_size, pool_in};
ghost use Rattle.radix_judge.specs.Visit.{seen_of, Few, visit};

use crate::node::fits;

// The nodes of which a link leads to the first, each with what lies below it: d bytes lead there, and n keys came before. The answer is how
// many keys there are then; none, a place breaks a rule or there are over 64. No place is visited twice, since a mark stays.
pub fn visit(
    s: &[u8],
    left: usize,
    link: usize,
    d: usize,
    n: usize,
    marks: &mut [u8],
) -> Option<usize>
    requires { (length s.now ≡ record_size) × ((d ≤ 16) × ((n ≤ 64) × (length marks.old ≡ 256))) }
    ensures { (seen_of result marks.new ≡ visit left (pool_in s.now) true 0 link d n marks.old) × Few result }
{
    let mut rest = left;
    let mut first = true;
    let mut least = 0;
    let mut at = link;
    let mut keys = n;
    while at != 0 {
        if rest == 0 {
            return None;
        }
        if 256 < at {
            return None;
        }
        let p = at - 1;
        if marks[p] != 0 {
            return None;
        }
        marks[p] = 1;
        rest -= 1;
        if !fits(s, rest, p, first, least, d, keys) {
            return None;
        }
        first = false;
        least = radix_bytes::first_byte(s, p) + 1;
        at = radix_bytes::next_at(s, p);
        keys += radix_bytes::key_at(s, p);
        let below = radix_bytes::child_at(s, p);
        if below != 0 {
            let e = d + radix_bytes::label_len(s, p);
            keys = visit(s, rest, below, e, keys, marks)?;
        }
    }
    Some(keys)
}
