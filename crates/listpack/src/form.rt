// The forms of an integer: two's complement over half a range, and the size of the first form that fits.

ghost use Rattle.std.specs.Prelude.{◌≡◌, true, false, ◌*◌, ◌^◌, ◌≤◌, ◌<◌, length};
ghost use Rattle.listpack.specs.Width.{fits, narrow, extend, half_of};
ghost use Rattle.listpack.specs.Element.{IsWide, integer_body, text_head, back_length};

// The last pattern, and the first that stands for a negative number.
const LAST: u64 = 0xFFFF_FFFF_FFFF_FFFF;

const SIGN: u64 = 0x8000_0000_0000_0000;

// Half the range of the form of two bytes, which has 13 bits, and of 16, 24, 32 and 64 bits.
pub const HALF_SHORT: u64 = 4096;

pub const HALF_16: u64 = 0x8000;

pub const HALF_24: u64 = 0x80_0000;

pub const HALF_32: u64 = 0x8000_0000;

pub const HALF_64: u64 = 0x8000_0000_0000_0000;

// Half the range of w bytes.
pub fn half_of(w: usize) -> u64
    requires { (1 ≤ w) × (w ≤ 8) }
    ensures { result ≡ half_of w }
{
    1 << (8 * w - 1)
}

// The number is from -half to half - 1.
pub fn fits(half: u64, p: u64) -> bool
    requires { 1 ≤ half }
    ensures { result ≡ fits half p }
{
    if p < half {
        return true;
    }
    if LAST - (half - 1) <= p {
        return true;
    }
    false
}

// The pattern in a form of that range.
pub fn narrow(half: u64, p: u64) -> u64
    requires { (1 ≤ half) × (half ≤ 2 ^ 63) × (fits half p ≡ true) }
    ensures { result ≡ narrow half p }
{
    if p < half {
        return p;
    }
    p - (SIGN - half) * 2
}

// The 64-bit pattern of a form's.
pub fn extend(half: u64, v: u64) -> u64
    requires { (half ≤ 2 ^ 63) × (v < 2 * half) }
    ensures { result ≡ extend half v }
{
    if v < half {
        return v;
    }
    v + (SIGN - half) * 2
}

// A form of three bytes or more: its first byte, how many follow, and half their range.
#[derive(Clone, Copy)]
pub struct Wide {
    pub tag: u64,
    pub w: usize,
    pub half: u64,
}

// The first of them that fits.
pub fn wide_form(p: u64) -> Wide
    requires { (128 ≤ p) × (fits 4096 p ≡ false) }
    ensures { IsWide p result.tag result.w result.half }
{
    if fits(HALF_16, p) {
        return Wide {
            tag: 241,
            w: 2,
            half: HALF_16,
        };
    }
    if fits(HALF_24, p) {
        return Wide {
            tag: 242,
            w: 3,
            half: HALF_24,
        };
    }
    if fits(HALF_32, p) {
        return Wide {
            tag: 243,
            w: 4,
            half: HALF_32,
        };
    }
    Wide {
        tag: 244,
        w: 8,
        half: HALF_64,
    }
}

// How many bytes encoding and content take.
pub fn body_size(p: u64) -> usize
    ensures { result ≡ length (integer_body p) }
{
    if p < 128 {
        return 1;
    }
    if fits(HALF_SHORT, p) {
        return 2;
    }
    let f = wide_form(p);
    1 + f.w
}

// How many bytes the back length takes.
pub fn back_size(n: usize) -> usize
    ensures { result ≡ length (back_length n) }
{
    if n < 128 {
        return 1;
    }
    2
}

// How many bytes the head of a text of n bytes takes.
pub fn head_size(n: usize) -> usize
    ensures { result ≡ length (text_head n) }
{
    if n < 64 {
        return 1;
    }
    2
}
