// The bytes of a record.

ghost use Rattle.std.specs.Prelude.{◌≡◌, true, ◌++◌, ◌+◌, ◌^◌, ◌≤◌, ◌<◌, length};
ghost use Rattle.octets.specs.Bytes.{le};
ghost use Rattle.octets.specs.Place.{put};
ghost use Rattle.keys.specs.Entries.{is_map};
ghost use Rattle.keys.specs.Table.{tabled};
ghost use Rattle.radix.specs.Layout.{record_of};
ghost use Rattle.radix_bytes.specs.Bytes.{record_size, children_at, word_bytes, bytes_of, record_from, Fit};

use crate::{CHILDREN_AT, KEYS_AT, LABELS_AT, LENS_AT, NEXTS_AT, VALUES_AT};
use keys::Table;
use radix::Index;

// One number after the other. The two differ in the numbers' type: of a type parameter the contract would speak through a trait of its own,
// longer than both loops.
fn write_links(out: &mut [u8], at: usize, a: &[u16])
    requires { (at + 512 ≤ length out.old) × (length a.now ≡ 256) }
    ensures { (out.new ≡ put out.old at (word_bytes 2 a.now)) × Fit 2 a.now }
{
    for i in 0..256 {
        octets::write_le(out, at + 2 * i, 2, a[i] as u64);
    }
}

fn write_values(out: &mut [u8], at: usize, a: &[u32])
    requires { (at + 1024 ≤ length out.old) × (length a.now ≡ 256) }
    ensures { (out.new ≡ put out.old at (word_bytes 4 a.now)) × Fit 4 a.now }
{
    for i in 0..256 {
        octets::write_le(out, at + 4 * i, 4, a[i] as u64);
    }
}

fn write_head(root: u16, len: &[u8], key: &[u8], out: &mut [u8])
    requires { (length len.now ≡ 256) × ((length key.now ≡ 256) × (length out.old ≡ record_size)) }
    ensures { (out.new ≡ put out.old 0 (le 2 root ++ (len.now ++ key.now))) × (root < 2 ^ 16) }
{
    octets::write_le(out, 0, 2, root as u64);
    octets::copy_in(out, LENS_AT, len);
    octets::copy_in(out, KEYS_AT, key);
}

fn write_tree(child: &[u16], next: &[u16], out: &mut [u8])
    requires { (length child.now ≡ 256) × ((length next.now ≡ 256) × (length out.old ≡ record_size)) }
    ensures { (out.new ≡ put out.old children_at (word_bytes 2 child.now ++ word_bytes 2 next.now)) × (Fit 2 child.now × Fit 2 next.now) }
{
    write_links(out, CHILDREN_AT, child);
    write_links(out, NEXTS_AT, next);
}

// A record, which is then read back.
fn write_record(x: &Index, out: &mut [u8])
    requires { length out.old ≡ record_size }
    ensures { (out.new ≡ bytes_of x.now) × (record_from out.new ≡ x.now) }
{
    write_head(x.root, &x.len, &x.key, out);
    write_tree(&x.child, &x.next, out);
    write_values(out, VALUES_AT, &x.val);
    octets::copy_in(out, LABELS_AT, &x.label);
}

// The record of a table of a map: it is made, and then written.
pub fn build(t: Table, out: &mut [u8])
    requires { (is_map (tabled t) ≡ true) × (length out.old ≡ record_size) }
    ensures { (out.new ≡ bytes_of (record_of (tabled t))) × (record_from out.new ≡ record_of (tabled t)) }
{
    let mut x = Index {
        root: 0,
        len: [0; 256],
        key: [0; 256],
        child: [0; 256],
        next: [0; 256],
        val: [0; 256],
        label: [0; 4096],
    };
    radix::build(t, &mut x);
    write_record(&x, out);
}
