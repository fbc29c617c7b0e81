// Numbers of up to 8 bytes at a place of a slice.

ghost use Rattle.std.specs.Prelude.{◌≡◌, ◌+◌, ◌*◌, ◌^◌, ◌≤◌, ◌<◌, length};
ghost use Rattle.octets.specs.Bytes.{le, le_value, be, be_value};
ghost use Rattle.octets.specs.Place.{area, put};

// From the highest byte, which is the last, to the lowest.
pub fn read_le(s: &[u8], at: usize, width: usize) -> u64
    requires { (width ≤ 8) × (at + width ≤ length s.now) }
    ensures { (result ≡ le_value (area at width s.now)) × (result < 2 ^ (8 * width)) }
{
    let mut v: u64 = 0;
    for k in (0..width).rev() {
        v = v * 256 + crate::wide(s[at + k]);
    }
    v
}

pub fn read_be(s: &[u8], at: usize, width: usize) -> u64
    requires { (width ≤ 8) × (at + width ≤ length s.now) }
    ensures { (result ≡ be_value (area at width s.now)) × (result < 2 ^ (8 * width)) }
{
    let mut v: u64 = 0;
    for i in 0..width {
        v = v * 256 + crate::wide(s[at + i]);
    }
    v
}

pub fn write_le(d: &mut [u8], at: usize, width: usize, v: u64)
    requires { (width ≤ 8) × (at + width ≤ length d.old) }
    ensures { d.new ≡ put d.old at (le width v) }
{
    let mut x = v;
    for i in 0..width {
        d[at + i] = (x % 256) as u8;
        x /= 256;
    }
}

// From the lowest byte, which is the last, to the highest.
pub fn write_be(d: &mut [u8], at: usize, width: usize, v: u64)
    requires { (width ≤ 8) × (at + width ≤ length d.old) }
    ensures { d.new ≡ put d.old at (be width v) }
{
    let mut x = v;
    for k in (0..width).rev() {
        d[at + k] = (x % 256) as u8;
        x /= 256;
    }
}
