// Pieces of a region: a name's field, the places of consumers in the rows.

ghost use Rattle.std.specs.Prelude.{◌≡◌, ◌++◌, ◌+◌, ◌-◌, ◌*◌, ◌≤◌, ◌<◌, min, length, take, drop};
ghost use Rattle.groups.specs.Group.{longest_name, most_count};
ghost use Rattle.groups.specs.Bytes.{name_field, entries_at, entry_bytes};
ghost use Rattle.groups.specs.Step.{idle};
ghost use Rattle.groups_change.specs.Places.{moved_place, places_moved};

use groups::{ENTRIES_AT, ENTRY_BYTES, PLACE_AT};

// The greatest delivery count, most_count of specs/Group of the crate groups.
const MOST_COUNT: u64 = 65535;

pub fn name_field(name: &[u8]) -> [u8; 17]
    requires { length name.now ≤ longest_name }
    ensures { result ≡ name_field name.now }
{
    let mut b = [0u8; 17];
    b[0] = name.len() as u8;
    octets::copy_in(&mut b, 1, name);
    b
}

fn moved_place(x: u8, from: usize, add: usize, sub: usize) -> u8
    requires { (add ≤ 1) × (sub ≤ from) }
    ensures { result ≡ moved_place from add sub x }
{
    let place = octets::wide(x) as usize;
    if place < from {
        return x;
    }
    ((place + add - sub) % 256) as u8
}

// The places of so many entries, when a consumer is put in or taken out.
pub fn move_places(region: &mut [u8], count: usize, from: usize, add: usize, sub: usize)
    requires { (entries_at + count * entry_bytes ≤ length region.old) × (add ≤ 1) × (sub ≤ from) }
    ensures { region.new ≡ take entries_at region.old ++ places_moved from add sub count (drop entries_at region.old) }
{
    let mut at = ENTRIES_AT;
    for _ in 0..count {
        region[at + PLACE_AT] = moved_place(region[at + PLACE_AT], from, add, sub);
        at += ENTRY_BYTES;
    }
}

// Now minus the delivery time, 0 if the clock went back.
pub fn idle_for(time: u64, since: u64) -> u64
    ensures { result ≡ idle time since }
{
    time.saturating_sub(since)
}

pub fn grown(count: u64) -> u64
    ensures { result ≡ min (count + 1) most_count }
{
    count.saturating_add(1).min(MOST_COUNT)
}
