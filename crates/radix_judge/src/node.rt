// The tests at a node.

ghost use Rattle.std.specs.Prelude.{◌≡◌, ◌+◌, ◌*◌, ◌-◌, ◌^◌, ◌<◌, ◌≤◌, ltb, length, get_or};
ghost use Rattle.octets.specs.Pick.{both};
ghost use Rattle.octets.specs.Place.{area};
ghost use Rattle.octets.specs.Compare.{all_zero};
ghost use Rattle.radix.specs.Canon.{is_nil, are_several, is_only, is_one_of};
ghost use Rattle.radix.specs.Record.{label_of, value_of, tree_at, is_flag, is_tidy};
ghost use Rattle.radix_bytes.specs.Bytes.{record_size, pool_in};
ghost use Rattle.radix_judge.specs.Visit.{rule_at, is_fit};

use radix_bytes::LABELS_AT;

// Whether a link leads to a node that has a sibling.
fn several(s: &[u8], left: usize, link: usize) -> bool
    requires { length s.now ≡ record_size }
    ensures { are_several (tree_at left (pool_in s.now) link) ≡ result }
{
    if !radix::leads(left, link) {
        return false;
    }
    let later = radix_bytes::next_at(s, link - 1);
    radix::leads(left - 1, later)
}

// The rule of an only child; `left` is how far its children may go.
fn is_only(s: &[u8], left: usize, p: usize) -> bool
    requires { (length s.now ≡ record_size) × (p < 256) }
    ensures { result ≡ is_only (label_of (pool_in s.now) p) (value_of (pool_in s.now) p) (tree_at left (pool_in s.now) (get_or (pool_in s.now).child p 0)) }
{
    if radix_bytes::label_len(s, p) == 0 {
        return false;
    }
    if radix_bytes::key_at(s, p) != 0 {
        return true;
    }
    let below = radix_bytes::child_at(s, p);
    several(s, left, below)
}

// The rule of one of several.
fn is_one_of(s: &[u8], left: usize, p: usize, least: usize) -> bool
    requires { (length s.now ≡ record_size) × (p < 256) }
    ensures { result ≡ is_one_of least (label_of (pool_in s.now) p) (value_of (pool_in s.now) p) (tree_at left (pool_in s.now) (get_or (pool_in s.now).child p 0)) }
{
    if radix_bytes::label_len(s, p) != 1 {
        return false;
    }
    if radix_bytes::first_byte(s, p) < least {
        return false;
    }
    if radix_bytes::key_at(s, p) != 0 {
        return true;
    }
    let below = radix_bytes::child_at(s, p);
    radix::leads(left, below)
}

// Whether no sibling stands before it or after it.
fn is_alone(s: &[u8], left: usize, p: usize, first: bool) -> bool
    requires { (length s.now ≡ record_size) × (p < 256) }
    ensures { result ≡ both first (is_nil (tree_at left (pool_in s.now) (get_or (pool_in s.now).next p 0))) }
{
    if !first {
        return false;
    }
    let later = radix_bytes::next_at(s, p);
    !radix::leads(left, later)
}

// The rule that is due at a node.
fn rule(s: &[u8], left: usize, p: usize, first: bool, least: usize) -> bool
    requires { (length s.now ≡ record_size) × (p < 256) }
    ensures { result ≡ rule_at first least left (pool_in s.now) p }
{
    if is_alone(s, left, p, first) {
        return is_only(s, left, p);
    }
    is_one_of(s, left, p, least)
}

// Whether a place has a key flag, and no value without it.
fn flag_at(s: &[u8], p: usize) -> bool
    requires { (length s.now ≡ record_size) × (p < 256) }
    ensures { result ≡ is_flag (get_or (pool_in s.now).key p 0) (get_or (pool_in s.now).val p 0) }
{
    let k = radix_bytes::key_at(s, p);
    if k == 0 {
        return radix_bytes::value_at(s, p) == 0;
    }
    k == 1
}

// Whether 8 bytes are zero, as one number.
pub fn zero_word(s: &[u8], at: usize) -> bool
    requires { at + 8 ≤ length s.now }
    ensures { result ≡ all_zero (area at 8 s.now) }
{
    octets::read_le(s, at, 8) == 0
}

// Whether the bytes of a word after its first k are zero.
fn zero_after(s: &[u8], at: usize, k: usize) -> bool
    requires { (at + 8 ≤ length s.now) × (k < 8) }
    ensures { result ≡ all_zero (area (at + k) (8 - k) s.now) }
{
    octets::read_le(s, at, 8) < 1 << (8 * k)
}

// Whether the bytes after a label of n bytes are zero: by the last word, and of a short one by another, which may overlap.
fn ends_at(s: &[u8], p: usize, n: usize) -> bool
    requires { (length s.now ≡ record_size) × ((p < 256) × (n ≤ 16)) }
    ensures { result ≡ all_zero (area (16 * p + n) (16 - n) (pool_in s.now).label) }
{
    let at = LABELS_AT + 16 * p;
    if n == 16 {
        return true;
    }
    if 8 < n {
        return zero_after(s, at + 8, n - 8);
    }
    if !zero_word(s, at + 8) {
        return false;
    }
    zero_word(s, at + n)
}

// Whether a place in use is as it has to be.
fn tidy_at(s: &[u8], p: usize) -> bool
    requires { (length s.now ≡ record_size) × (p < 256) }
    ensures { result ≡ is_tidy (pool_in s.now) p }
{
    let n = radix_bytes::len_at(s, p);
    if 16 < n {
        return false;
    }
    if !flag_at(s, p) {
        return false;
    }
    ends_at(s, p, n)
}

// A value has 32 bits, since it has 4 bytes.
fn is_value(s: &[u8], p: usize) -> bool
    requires { (length s.now ≡ record_size) × (p < 256) }
    ensures { result ≡ ltb (get_or (pool_in s.now).val p 0) (2 ^ 32) }
{
    radix_bytes::value_at(s, p) <= 4294967295
}

// All tests at a node, to which d bytes lead and before which n keys came.
pub fn fits(s: &[u8], left: usize, p: usize, first: bool, least: usize, d: usize, n: usize) -> bool
    requires { (length s.now ≡ record_size) × ((p < 256) × ((d ≤ 16) × (n ≤ 64))) }
    ensures { result ≡ is_fit first least left (pool_in s.now) p d n }
{
    if !tidy_at(s, p) {
        return false;
    }
    if !rule(s, left, p, first, least) {
        return false;
    }
    if 16 < d + radix_bytes::label_len(s, p) {
        return false;
    }
    if 64 < n + radix_bytes::key_at(s, p) {
        return false;
    }
    is_value(s, p)
}
