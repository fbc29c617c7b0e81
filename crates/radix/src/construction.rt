// A record made of the rows of a table: the shape of its keys, laid into the pool.

ghost use Rattle.std.specs.Prelude.{◌≡◌, true, ◌+◌, ◌*◌, ◌-◌, ◌<◌, ◌≤◌, eqb, length, get_or, Some, None};
ghost use Rattle.octets.specs.Pick.{pick, both};
ghost use Rattle.octets.specs.Place.{area};
ghost use Rattle.radix.specs.Shape.{common, nodes};
ghost use Rattle.keys.specs.Table.{length_of, columns, tabled};
ghost use Rattle.radix.specs.Record.{nodes_of};
ghost use Rattle.radix.specs.Layout.{with_cell, flag_of, value_or0, laid, blank, record_of};
ghost use Rattle.radix.specs.Sprout.{sprout};
ghost use Rattle.radix.specs.Rows.{alike_at, share_at, rest_at, Ready};
ghost use Rattle.keys.specs.Entries.{is_map};

use crate::Index;
use keys::{Table, row_len};

// How many bytes from p and from q on are the same, of m and k bytes.
fn shared(key: &[u8], p: usize, m: usize, q: usize, k: usize) -> usize
    requires { (p + m ≤ length key.now) × (q + k ≤ length key.now) }
    ensures { result ≡ length (common (area p m key.now) (area q k key.now)) }
{
    for j in 0..m {
        if k <= j {
            return j;
        }
        if key[p + j] != key[q + j] {
            return j;
        }
    }
    m
}

// The end of the rows from a on, and before b, that have the byte of row a at d.
fn group_end(key: &[u8], a: usize, b: usize, d: usize) -> usize
    requires { (a < b) × ((b ≤ 64) × ((d < 16) × (length key.now ≡ 1024))) }
    ensures { result ≡ a + 1 + alike_at key.now d (get_or key.now (16 * a + d) 0) (a + 1) (b - (a + 1)) }
{
    let c = key[16 * a + d];
    for i in a + 1..b {
        if key[16 * i + d] != c {
            return i;
        }
    }
    b
}

// How long the label of the rows from a on is: all that rows a and b - 1 share where m, the end of their group, is b.
fn stretch_of(t: &Table, a: usize, b: usize, d: usize, first: bool, m: usize) -> usize
    requires { (a < b) × ((b ≤ 64) × ((d ≤ length_of t.now.len a) × (d ≤ length_of t.now.len (b - 1)))) }
    ensures { result ≡ pick (both first (eqb m b)) (share_at t.now.len t.now.key d a (b - 1)) 1 }
{
    if !first {
        return 1;
    }
    if m != b {
        return 1;
    }
    let z = b - 1;
    let k = row_len(&t.len, a);
    let n = row_len(&t.len, z);
    shared(&t.key, 16 * a + d, k - d, 16 * z + d, n - d)
}

// The value of row a, if it ends after e bytes.
fn own_row(t: &Table, a: usize, e: usize) -> Option<u32>
    requires { a < 64 }
    ensures { result ≡ pick (eqb (length_of t.now.len a) e) (Some (get_or t.now.val a 0)) None }
{
    if row_len(&t.len, a) == e {
        return Some(t.val[a]);
    }
    None
}

// The mark of a key node.
fn flag_of(own: Option<u32>) -> u8
    ensures { (result ≡ flag_of own) × (result ≤ 1) }
{
    match own {
        Some(_) => 1,
        None => 0,
    }
}

// The fields of place p.
fn put_node(x: &mut Index, p: usize, label: &[u8], own: Option<u32>, below: usize, later: usize)
    requires { (p < 256) × ((length label.now ≤ 16) × ((below < 65536) × (later < 65536))) }
    ensures { nodes_of x.new ≡ with_cell (nodes_of x.old) p label.now (flag_of own) (value_or0 own) below later }
{
    x.len[p] = label.len() as u8;
    x.key[p] = flag_of(own);
    x.val[p] = own.unwrap_or(0);
    x.child[p] = below as u16;
    x.next[p] = later as u16;
    octets::copy_in(&mut x.label, 16 * p, label);
}

// The link to what was laid from place a on, up to b.
fn link_over(a: usize, b: usize) -> usize
    ensures { result ≡ pick (eqb a b) 0 b }
{
    if a == b {
        return 0;
    }
    b
}

// The rows from a on, and before b, laid from place `at` on: later siblings, what lies below, the node. The answer is the next free place.
pub fn grow(
    t: &Table,
    left: usize,
    a: usize,
    b: usize,
    d: usize,
    first: bool,
    at: usize,
    x: &mut Index,
) -> usize
    requires { Ready (columns t.now.len t.now.val t.now.key) left first a b d at }
    ensures { (result ≡ at + nodes (sprout left first (rest_at (columns t.now.len t.now.val t.now.key) d a b))) × (nodes_of x.new ≡ laid (sprout left first (rest_at (columns t.now.len t.now.val t.now.key) d a b)) at (nodes_of x.old)) }
{
    if left == 0 {
        return at;
    }
    if a == b {
        return at;
    }
    let m = group_end(&t.key, a, b, d);
    let n = stretch_of(t, a, b, d, first, m);
    let own = own_row(t, a, d + n);
    let skip = octets::wide_place(flag_of(own));
    let f = grow(t, left - 1, m, b, d, false, at, x);
    let g = grow(t, left - 1, a + skip, m, d + n, true, f, x);
    let from = 16 * a + d;
    put_node(
        x,
        g,
        &t.key[from..from + n],
        own,
        link_over(f, g),
        link_over(at, f),
    );
    g + 1
}

// The record of a table of a map, its root at place 0, in one that is lent full of zeros.
pub fn build(t: Table, x: &mut Index)
    requires { (is_map (tabled t) ≡ true) × (nodes_of x.old ≡ blank) }
    ensures { x.new ≡ record_of (tabled t) }
{
    let end = grow(&t, 80, 0, t.n, 0, true, 1, x);
    x.root = 0;
    x.child[0] = link_over(1, end) as u16;
}
