// Places without a mark: every field is zero. A record that was made of its entries has them all at the end of its pool, where they are
// tested field by field; any other is tested place by place.

ghost use Rattle.std.specs.Prelude.{◌≡◌, true, ◌-◌, ◌<◌, ◌≤◌, eqb, length, get_or};
ghost use Rattle.octets.specs.Pick.{pick};
ghost use Rattle.radix.specs.Record.{Nodes, is_free};
ghost use Rattle.radix_bytes.specs.Bytes.{record_size, pool_in};
ghost use Rattle.radix_judge.specs.Visit.{are_free, zero_from};

use radix_bytes::{CHILDREN_AT, KEYS_AT, LABELS_AT, LENS_AT, NEXTS_AT, RECORD_BYTES, VALUES_AT};

// Whether every field of a place is zero.
fn free_at(s: &[u8], p: usize) -> bool
    requires { (length s.now ≡ record_size) × (p < 256) }
    ensures { result ≡ is_free (pool_in s.now) p }
{
    if radix_bytes::len_at(s, p) != 0 {
        return false;
    }
    if radix_bytes::key_at(s, p) != 0 {
        return false;
    }
    if radix_bytes::child_at(s, p) != 0 {
        return false;
    }
    if radix_bytes::next_at(s, p) != 0 {
        return false;
    }
    if radix_bytes::value_at(s, p) != 0 {
        return false;
    }
    let at = LABELS_AT + 16 * p;
    octets::all_zero_from(&s[at..at + 16], 0)
}

// The same, unless it has a mark.
fn free_unless(s: &[u8], marks: &[u8], p: usize) -> bool
    requires { (length s.now ≡ record_size) × ((length marks.now ≡ 256) × (p < 256)) }
    ensures { result ≡ pick (eqb (get_or marks.now p 0) 0) (is_free (pool_in s.now) p) true }
{
    if marks[p] != 0 {
        return true;
    }
    free_at(s, p)
}

fn free_from(s: &[u8], marks: &[u8], from: usize) -> bool
    requires { (length s.now ≡ record_size) × ((length marks.now ≡ 256) × (from ≤ 256)) }
    ensures { result ≡ are_free (pool_in s.now) marks.now from (256 - from) }
{
    for p in from..256 {
        if !free_unless(s, marks, p) {
            return false;
        }
    }
    true
}

// Where the first word of 8 marks stands that lacks one.
fn marked_words(marks: &[u8]) -> usize
    requires { length marks.now ≡ 256 }
    ensures { (result ≤ 256) × ((x : Nodes) → are_free x marks.now result (256 - result) ≡ are_free x marks.now 0 256) }
{
    for w in 0..32 {
        if octets::read_le(marks, 8 * w, 8) != 0x0101_0101_0101_0101 {
            return 8 * w;
        }
    }
    256
}

// The first place without a mark.
fn first_free(marks: &[u8]) -> usize
    requires { length marks.now ≡ 256 }
    ensures { (result ≤ 256) × ((x : Nodes) → are_free x marks.now result (256 - result) ≡ are_free x marks.now 0 256) }
{
    for p in marked_words(marks)..256 {
        if marks[p] == 0 {
            return p;
        }
    }
    256
}

// Whether every field from place p on is zero.
fn zero_from(s: &[u8], p: usize) -> bool
    requires { (length s.now ≡ record_size) × (p ≤ 256) }
    ensures { result ≡ zero_from s.now p }
{
    if !octets::all_zero_from(&s[LABELS_AT + 16 * p..RECORD_BYTES], 0) {
        return false;
    }
    if !octets::all_zero_from(&s[VALUES_AT + 4 * p..LABELS_AT], 0) {
        return false;
    }
    if !octets::all_zero_from(&s[NEXTS_AT + 2 * p..VALUES_AT], 0) {
        return false;
    }
    if !octets::all_zero_from(&s[CHILDREN_AT + 2 * p..NEXTS_AT], 0) {
        return false;
    }
    if !octets::all_zero_from(&s[KEYS_AT + p..CHILDREN_AT], 0) {
        return false;
    }
    octets::all_zero_from(&s[LENS_AT + p..KEYS_AT], 0)
}

pub fn rest_free(s: &[u8], marks: &[u8]) -> bool
    requires { (length s.now ≡ record_size) × (length marks.now ≡ 256) }
    ensures { result ≡ are_free (pool_in s.now) marks.now 0 256 }
{
    let p = first_free(marks);
    if zero_from(s, p) {
        return true;
    }
    free_from(s, marks, p)
}
