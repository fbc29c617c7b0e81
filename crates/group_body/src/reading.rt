// A body that is one, read into a region: each name goes to a field of 17 bytes, and zeros fill what is unused.

ghost use Rattle.std.specs.Prelude.{◌≡◌, true, not, ◌+◌, ◌≤◌, length, drop, is_none};
ghost use Rattle.octets.specs.Place.{put};
ghost use Rattle.groups.specs.Group.{most_consumers};
ghost use Rattle.groups.specs.Bytes.{padded, all_names, all_name_fields, region_size, fields_at, consumers_bytes};
ghost use Rattle.groups.specs.Parse.{parse_body};
ghost use Rattle.group_body.specs.Answer.{read_into, names_at, are_names_at};

use groups::{DELIVERED_AT, FIELD_BYTES, FIELDS_AT, PENDING_AT};

// The last part of a region: the number of entries and their room.
const LAST_BYTES: usize = 6914;

fn copy_padded(d: &mut [u8], at: usize, s: &[u8], room: usize)
    requires { (length s.now ≤ room) × (at + room ≤ length d.old) }
    ensures { d.new ≡ put d.old at (padded room s.now) }
{
    octets::copy_in(d, at, s);
    octets::zero(d, at + s.len(), room - s.len());
}

// So many names at a place go to the fields of the consumers. The answer is the place after the names.
fn read_names(s: &[u8], at: usize, count: usize, region: &mut [u8]) -> usize
    requires { (length region.old ≡ region_size) × (count ≤ most_consumers) × (at ≤ length s.now) × (are_names_at count (drop at s.now) ≡ true) }
    ensures { (result ≡ at + length (all_names (names_at count (drop at s.now)))) × (region.new ≡ put region.old fields_at (padded consumers_bytes (all_name_fields (names_at count (drop at s.now))))) }
{
    let mut i = at;
    let mut to = FIELDS_AT;
    for _ in 0..count {
        let n = 1 + octets::wide(s[i]) as usize;
        copy_padded(region, to, &s[i..i + n], FIELD_BYTES);
        i += n;
        to += FIELD_BYTES;
    }
    octets::zero(region, to, PENDING_AT - to);
    i
}

// What is known to be a body: its name, the bytes from its last delivered ID to its number of consumers, their names, and the rest.
pub fn fill_region(s: &[u8], region: &mut [u8])
    requires { (length region.old ≡ region_size) × (not (is_none (parse_body s.now)) ≡ true) }
    ensures { region.new ≡ read_into (parse_body s.now) region.old }
{
    let n = 1 + octets::wide(s[0]) as usize;
    copy_padded(region, 0, &s[0..n], FIELD_BYTES);
    octets::copy_in(region, DELIVERED_AT, &s[n..n + 17]);
    let end = read_names(s, n + 17, octets::wide(s[n + 16]) as usize, region);
    copy_padded(region, PENDING_AT, &s[end..s.len()], LAST_BYTES);
}
