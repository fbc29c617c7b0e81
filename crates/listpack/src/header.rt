// The header of a listpack: total bytes and element count.

ghost use Rattle.std.specs.Prelude.{◌≡◌, ◌^◌, ◌≤◌, ◌<◌, length};
ghost use Rattle.octets.specs.Bytes.{le_value};
ghost use Rattle.octets.specs.Place.{area, put};
ghost use Rattle.listpack.specs.Listpack.{header};

pub fn read_total(s: &[u8]) -> u64
    requires { 6 ≤ length s.now }
    ensures { (result ≡ le_value (area 0 4 s.now)) × (result < 2 ^ 32) }
{
    octets::read_le(s, 0, 4)
}

pub fn read_count(s: &[u8]) -> u64
    requires { 6 ≤ length s.now }
    ensures { (result ≡ le_value (area 4 2 s.now)) × (result < 2 ^ 16) }
{
    octets::read_le(s, 4, 2)
}

pub fn write_header(d: &mut [u8], total: u64, count: u64)
    requires { 6 ≤ length d.old }
    ensures { d.new ≡ put d.old 0 (header total count) }
{
    octets::write_le(d, 0, 4, total);
    octets::write_le(d, 4, 2, count);
}
