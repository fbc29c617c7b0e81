// What stands at a place of the pool, read from the bytes of a record.

ghost use Rattle.std.specs.Prelude.{◌≡◌, ◌*◌, ◌+◌, ◌^◌, ◌<◌, ◌≤◌, length, get_or};
ghost use Rattle.radix.specs.Shape.{first_byte};
ghost use Rattle.radix.specs.Record.{label_of};
ghost use Rattle.keys.specs.Entries.{length_of};
ghost use Rattle.radix_bytes.specs.Bytes.{record_size, record_from, pool_in};

use crate::{CHILDREN_AT, KEYS_AT, LABELS_AT, LENS_AT, NEXTS_AT, VALUES_AT};

// The root's place.
pub fn root_of(s: &[u8]) -> usize
    requires { length s.now ≡ record_size }
    ensures { (result ≡ (record_from s.now).root) × (result < 65536) }
{
    octets::read_le(s, 0, 2) as usize
}

pub fn len_at(s: &[u8], p: usize) -> usize
    requires { (length s.now ≡ record_size) × (p < 256) }
    ensures { (result ≡ get_or (pool_in s.now).len p 0) × (result < 256) }
{
    octets::wide_place(s[LENS_AT + p])
}

pub fn key_at(s: &[u8], p: usize) -> usize
    requires { (length s.now ≡ record_size) × (p < 256) }
    ensures { (result ≡ get_or (pool_in s.now).key p 0) × (result < 256) }
{
    octets::wide_place(s[KEYS_AT + p])
}

pub fn child_at(s: &[u8], p: usize) -> usize
    requires { (length s.now ≡ record_size) × (p < 256) }
    ensures { (result ≡ get_or (pool_in s.now).child p 0) × (result < 65536) }
{
    octets::read_le(s, CHILDREN_AT + 2 * p, 2) as usize
}

pub fn next_at(s: &[u8], p: usize) -> usize
    requires { (length s.now ≡ record_size) × (p < 256) }
    ensures { (result ≡ get_or (pool_in s.now).next p 0) × (result < 65536) }
{
    octets::read_le(s, NEXTS_AT + 2 * p, 2) as usize
}

pub fn value_at(s: &[u8], p: usize) -> u32
    requires { (length s.now ≡ record_size) × (p < 256) }
    ensures { (result ≡ get_or (pool_in s.now).val p 0) × (result < 2 ^ 32) }
{
    octets::read_le(s, VALUES_AT + 4 * p, 4) as u32
}

pub fn label_len(s: &[u8], p: usize) -> usize
    requires { (length s.now ≡ record_size) × (p < 256) }
    ensures { (result ≡ length_of (pool_in s.now).len p) × (result ≤ 16) }
{
    len_at(s, p).min(16)
}

// The first byte of a label, 0 where it has none.
pub fn first_byte(s: &[u8], p: usize) -> usize
    requires { (length s.now ≡ record_size) × (p < 256) }
    ensures { (result ≡ first_byte (label_of (pool_in s.now) p)) × (result < 256) }
{
    if label_len(s, p) == 0 {
        return 0;
    }
    octets::wide_place(s[LABELS_AT + 16 * p])
}
