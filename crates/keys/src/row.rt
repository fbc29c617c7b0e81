// Rows of a table: a key's place among them, one row more or one less.

ghost use Rattle.std.specs.Prelude.{◌≡◌, [], ◌∷◌, ◌++◌, ◌+◌, ◌*◌, ◌-◌, ◌<◌, ◌≤◌, ltb, length, take, drop};
ghost use Rattle.octets.specs.Pick.{both};
ghost use Rattle.octets.specs.Place.{area};
ghost use Rattle.octets.specs.Compare.{same};
ghost use Rattle.keys.specs.Entries.{entry, is_key, length_of};
ghost use Rattle.keys.specs.Table.{columns, rows_from, tabled, table_of, appended};
ghost use Rattle.keys.specs.Rank.{rank};

use crate::Table;

// A key has 1 to 16 bytes.
pub fn is_key(k: &[u8]) -> bool
    ensures { result ≡ is_key k.now }
{
    if k.len() < 1 {
        return false;
    }
    k.len() <= 16
}

// How long the key of row i is.
pub fn row_len(len: &[u8; 64], i: usize) -> usize
    requires { i < 64 }
    ensures { (result ≡ length_of len.now i) × (result ≤ 16) }
{
    (len[i] as usize).min(16)
}

pub fn no_rows() -> Table
    ensures { (tabled result ≡ []) × (result.n ≡ 0) × (result ≡ table_of []) }
{
    Table {
        n: 0,
        len: [0; 64],
        val: [0; 64],
        key: [0; 1024],
    }
}

// One row more, at the end.
pub fn push(t: &mut Table, k: &[u8], v: u32)
    requires { (t.old.n < 64) × (length k.now ≤ 16) }
    ensures { (tabled t.new ≡ tabled t.old ++ (entry k.now v ∷ [])) × (t.new ≡ appended t.old k.now v) }
{
    let n = t.n;
    t.len[n] = k.len() as u8;
    t.val[n] = v;
    octets::copy_in(&mut t.key, 16 * n, k);
    t.n = n + 1;
}

pub fn append(t: Table, k: &[u8], v: u32) -> Table
    requires { (t.n < 64) × (length k.now ≤ 16) }
    ensures { (tabled result ≡ tabled t ++ (entry k.now v ∷ [])) × (result.n ≡ t.n + 1) × (result ≡ appended t k.now v) }
{
    let mut more = t;
    push(&mut more, k, v);
    more
}

// The rows from a on, and before b, added to those of a table that has nothing past its rows.
fn copy_rows(from: Table, a: usize, b: usize, to: Table) -> Table
    requires { (a ≤ b) × ((b ≤ 64) × ((to.n + (b - a) ≤ 64) × (to ≡ table_of (tabled to)))) }
    ensures { (tabled result ≡ tabled to ++ rows_from (columns from.len from.val from.key) a (b - a)) × (result.n ≡ to.n + (b - a)) × (result ≡ table_of (tabled result)) }
{
    let mut t = to;
    for i in a..b {
        let at = 16 * i;
        let m = row_len(&from.len, i);
        push(&mut t, &from.key[at..at + m], from.val[i]);
    }
    t
}

// How many keys come before k.
pub fn rank_of(t: Table, k: &[u8]) -> usize
    requires { t.n ≤ 64 }
    ensures { result ≡ rank k.now (tabled t) }
{
    for i in 0..t.n {
        let at = 16 * i;
        let m = row_len(&t.len, i);
        if !octets::comes_before(&t.key[at..at + m], k) {
            return i;
        }
    }
    t.n
}

// Whether row i has the key k.
pub fn is_row(t: Table, i: usize, k: &[u8]) -> bool
    requires { t.n ≤ 64 }
    ensures { result ≡ both (ltb i t.n) (same k.now (area (16 * i) (length_of t.len i) t.key)) }
{
    if t.n <= i {
        return false;
    }
    let at = 16 * i;
    let m = row_len(&t.len, i);
    octets::equal(k, &t.key[at..at + m])
}

// The first r rows, a new one, and those from s on.
pub fn with_row(t: Table, r: usize, s: usize, k: &[u8], v: u32) -> Table
    requires { (r ≤ s) × ((s ≤ t.n) × ((t.n ≤ 64) × ((r + 1 + (t.n - s) ≤ 64) × (length k.now ≤ 16)))) }
    ensures { (tabled result ≡ take r (tabled t) ++ (entry k.now v ∷ drop s (tabled t))) × (result ≡ table_of (tabled result)) }
{
    copy_rows(t, s, t.n, append(copy_rows(t, 0, r, no_rows()), k, v))
}

// All rows but row r.
pub fn without_row(t: Table, r: usize) -> Table
    requires { (r < t.n) × (t.n ≤ 64) }
    ensures { (tabled result ≡ take r (tabled t) ++ drop (r + 1) (tabled t)) × (result ≡ table_of (tabled result)) }
{
    copy_rows(t, r + 1, t.n, copy_rows(t, 0, r, no_rows()))
}
