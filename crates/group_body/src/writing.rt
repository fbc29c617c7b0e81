// The body of a sound region's group, written to a place of an output. The region's name, the bytes from its last delivered ID to
// its number of consumers, and those from its number of entries to the last entry stand in the body as they are.

ghost use Rattle.std.specs.Prelude.{◌≡◌, ◌+◌, ◌≤◌, length};
ghost use Rattle.octets.specs.Place.{put};
ghost use Rattle.groups.specs.Bytes.{all_names, body_bytes, consumers_bytes, region_size};
ghost use Rattle.groups.specs.Parse.{group_in};
ghost use Rattle.groups.specs.Answer.{SoundRegion};

use groups::{DELIVERED_AT, ENTRY_BYTES, FIELD_BYTES, FIELDS_AT, PENDING_AT};

fn names_size(region: &[u8]) -> usize
    requires { SoundRegion region.now }
    ensures { (result ≡ length (all_names (group_in region.now).consumers)) × (result ≤ consumers_bytes) }
{
    let mut size = 0;
    let mut i = FIELDS_AT;
    let count = groups::consumer_count(region);
    for _ in 0..count {
        size += 1 + octets::wide(region[i]) as usize;
        i += FIELD_BYTES;
    }
    size
}

pub fn body_size(region: &[u8]) -> usize
    requires { SoundRegion region.now }
    ensures { (result ≡ length (body_bytes (group_in region.now))) × (result ≤ region_size) }
{
    let n = octets::wide(region[0]) as usize;
    let names = names_size(region);
    n + 20 + names + groups::pending_count(region) * ENTRY_BYTES
}

// The answer is the place after the names.
fn write_names(region: &[u8], d: &mut [u8], at: usize) -> usize
    requires { SoundRegion region.now × (at + length (all_names (group_in region.now).consumers) ≤ length d.old) }
    ensures { (result ≡ at + length (all_names (group_in region.now).consumers)) × (d.new ≡ put d.old at (all_names (group_in region.now).consumers)) }
{
    let mut to = at;
    let mut i = FIELDS_AT;
    let count = groups::consumer_count(region);
    for _ in 0..count {
        let n = 1 + octets::wide(region[i]) as usize;
        octets::copy_in(d, to, &region[i..i + n]);
        to += n;
        i += FIELD_BYTES;
    }
    to
}

// The answer is the place after the body.
pub fn write_body(region: &[u8], d: &mut [u8], at: usize) -> usize
    requires { SoundRegion region.now × (at + length (body_bytes (group_in region.now)) ≤ length d.old) }
    ensures { (result ≡ at + length (body_bytes (group_in region.now))) × (d.new ≡ put d.old at (body_bytes (group_in region.now))) }
{
    let n = 1 + octets::wide(region[0]) as usize;
    octets::copy_in(d, at, &region[0..n]);
    octets::copy_in(d, at + n, &region[DELIVERED_AT..FIELDS_AT]);
    let end = write_names(region, d, at + n + 17);
    let size = 2 + groups::pending_count(region) * ENTRY_BYTES;
    octets::copy_in(d, end, &region[PENDING_AT..PENDING_AT + size]);
    end + size
}
