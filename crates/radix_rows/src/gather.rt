// The entries of a tree, gathered into the rows of a table.

ghost use Rattle.std.specs.Prelude.{◌≡◌, ◌++◌, ◌+◌, ◌*◌, ◌<◌, ◌≤◌, length, take};
ghost use Rattle.octets.specs.Place.{area};
ghost use Rattle.radix.specs.Record.{value_of, tree_at};
ghost use Rattle.keys.specs.Table.{tabled};
ghost use Rattle.radix.specs.Gathering.{with_own, gathered};
ghost use Rattle.radix.specs.Answer.{rows_of, Room, Within};
ghost use Rattle.radix_bytes.specs.Bytes.{record_size, pool_in};

use keys::Table;
use radix_bytes::LABELS_AT;

// To the d bytes of a path that lead to a node come the n bytes of its label.
fn extend(path: &mut [u8], d: usize, s: &[u8], p: usize, n: usize)
    requires { (d + n ≤ 16) × ((length path.old ≡ 16) × ((length s.now ≡ record_size) × (p < 256))) }
    ensures { (take d path.new ≡ take d path.old) × (take (d + n) path.new ≡ take d path.old ++ area (16 * p) n (pool_in s.now).label) }
{
    let at = LABELS_AT + 16 * p;
    octets::copy_in(path, d, &s[at..at + n]);
}

// One row more, for a key node to which the key leads.
fn with_own(s: &[u8], p: usize, key: &[u8], t: &mut Table) -> Option<()>
    requires { Room t.old × ((length s.now ≡ record_size) × ((p < 256) × (length key.now ≤ 16))) }
    ensures { (rows_of result t.new ≡ with_own key.now (value_of (pool_in s.now) p) (tabled t.old)) × Within result t.new }
{
    if radix_bytes::key_at(s, p) == 0 {
        return Some(());
    }
    if 64 <= t.n {
        return None;
    }
    keys::push(t, key, radix_bytes::value_at(s, p));
    Some(())
}

// The entries of the nodes of which a link leads to the first, each with those below it, added to a table. The path keeps the d bytes that
// lead there.
pub fn gather(
    s: &[u8],
    left: usize,
    link: usize,
    path: &mut [u8],
    d: usize,
    t: &mut Table,
) -> Option<()>
    requires { Room t.old × ((length s.now ≡ record_size) × ((d ≤ 16) × (length path.old ≡ 16))) }
    ensures { (rows_of result t.new ≡ gathered (take d path.old) (tree_at left (pool_in s.now) link) (tabled t.old)) × (Within result t.new × (take d path.new ≡ take d path.old)) }
{
    let mut rest = left;
    let mut at = link;
    while radix::leads(rest, at) {
        let p = at - 1;
        let m = radix_bytes::label_len(s, p);
        if 16 < d + m {
            return None;
        }
        extend(path, d, s, p, m);
        with_own(s, p, &path[0..d + m], t)?;
        rest -= 1;
        at = radix_bytes::next_at(s, p);
        let below = radix_bytes::child_at(s, p);
        if below != 0 {
            gather(s, rest, below, path, d + m, t)?;
        }
    }
    Some(())
}
