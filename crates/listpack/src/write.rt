// Writers of an element into a place of a lent slice.

ghost use Rattle.std.specs.Prelude.{◌≡◌, [], ◌∷◌, ◌+◌, ◌≤◌, ◌<◌, length};
ghost use Rattle.octets.specs.Place.{put};
ghost use Rattle.listpack.specs.Listpack.{end_byte};
ghost use Rattle.listpack.specs.Element.{IsWide, integer, text, integer_body, text_head, back_length, encode_item, element};

use crate::form::{HALF_SHORT, Wide, fits, narrow, wide_form};

fn put_one(d: &mut [u8], at: usize, a: u64)
    requires { (a < 256) × (at < length d.old) }
    ensures { d.new ≡ put d.old at (a ∷ []) }
{
    d[at] = a as u8;
}

fn put_two(d: &mut [u8], at: usize, a: u64, b: u64)
    requires { (a < 256) × (b < 256) × (at + 1 < length d.old) }
    ensures { d.new ≡ put d.old at (a ∷ b ∷ []) }
{
    d[at] = a as u8;
    d[at + 1] = b as u8;
}

// The end byte.
pub fn put_end(d: &mut [u8], at: usize)
    requires { at < length d.old }
    ensures { d.new ≡ put d.old at end_byte }
{
    d[at] = 255;
}

// Each part of an element answers how many bytes it took.
fn write_back(d: &mut [u8], at: usize, n: usize) -> usize
    requires { (n < 16384) × (at + length (back_length n) ≤ length d.old) }
    ensures { (result ≡ length (back_length n)) × (d.new ≡ put d.old at (back_length n)) }
{
    if n < 128 {
        put_one(d, at, n as u64);
        return 1;
    }
    put_two(d, at, (n / 128) as u64, (128 + n % 128) as u64);
    2
}

fn write_head(d: &mut [u8], at: usize, n: usize) -> usize
    requires { (n < 4096) × (at + length (text_head n) ≤ length d.old) }
    ensures { (result ≡ length (text_head n)) × (d.new ≡ put d.old at (text_head n)) }
{
    if n < 64 {
        put_one(d, at, (128 + n) as u64);
        return 1;
    }
    put_two(d, at, (224 + n / 256) as u64, (n % 256) as u64);
    2
}

fn write_wide(d: &mut [u8], at: usize, tag: u64, w: usize, half: u64, p: u64) -> usize
    requires { (IsWide p tag w half) × (at + length (integer_body p) ≤ length d.old) }
    ensures { (result ≡ length (integer_body p)) × (d.new ≡ put d.old at (integer_body p)) }
{
    put_one(d, at, tag);
    octets::write_le(d, at + 1, w, narrow(half, p));
    1 + w
}

// A small width stands there as a number, so that its loop is unrolled.
fn write_form(d: &mut [u8], at: usize, f: Wide, p: u64) -> usize
    requires { (IsWide p f.tag f.w f.half) × (at + length (integer_body p) ≤ length d.old) }
    ensures { (result ≡ length (integer_body p)) × (d.new ≡ put d.old at (integer_body p)) }
{
    let w = f.w;
    if w == 2 {
        return write_wide(d, at, f.tag, 2, f.half, p);
    }
    if w == 3 {
        return write_wide(d, at, f.tag, 3, f.half, p);
    }
    if w == 4 {
        return write_wide(d, at, f.tag, 4, f.half, p);
    }
    write_wide(d, at, f.tag, w, f.half, p)
}

fn write_body(d: &mut [u8], at: usize, p: u64) -> usize
    requires { at + length (integer_body p) ≤ length d.old }
    ensures { (result ≡ length (integer_body p)) × (d.new ≡ put d.old at (integer_body p)) }
{
    if p < 128 {
        put_one(d, at, p);
        return 1;
    }
    if fits(HALF_SHORT, p) {
        let v = narrow(HALF_SHORT, p);
        put_two(d, at, 192 + v / 256, v % 256);
        return 2;
    }
    write_form(d, at, wide_form(p), p)
}

// The answer is where the next byte goes.
pub fn write_integer(d: &mut [u8], at: usize, p: u64) -> usize
    requires { at + length (encode_item (integer p)) ≤ length d.old }
    ensures { (result ≡ at + length (encode_item (integer p))) × (d.new ≡ put d.old at (encode_item (integer p))) }
{
    let n = write_body(d, at, p);
    let end = at + n;
    end + write_back(d, end, n)
}

fn write_text(d: &mut [u8], at: usize, s: &[u8]) -> usize
    requires { (length s.now < 4096) × (at + length (encode_item (text s.now)) ≤ length d.old) }
    ensures { (result ≡ at + length (encode_item (text s.now))) × (d.new ≡ put d.old at (encode_item (text s.now))) }
{
    let h = write_head(d, at, s.len());
    octets::copy_in(d, at + h, s);
    let n = h + s.len();
    let end = at + n;
    end + write_back(d, end, n)
}

// The answer is where the next byte goes.
pub fn write_string(d: &mut [u8], at: usize, s: &[u8]) -> usize
    requires { (length s.now < 4096) × (at + length (element s.now) ≤ length d.old) }
    ensures { (result ≡ at + length (element s.now)) × (d.new ≡ put d.old at (element s.now)) }
{
    let found = decimal::recognise(s);
    match found {
        Some(p) => write_integer(d, at, p),
        None => write_text(d, at, s),
    }
}
