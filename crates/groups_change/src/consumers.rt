// A consumer made if new, and one taken out.

ghost use Rattle.std.specs.Prelude.{◌≡◌, false, [], ◌≤◌, ◌<◌, length, get_or};
ghost use Rattle.groups.specs.declared.Spot.{Spot};
ghost use Rattle.groups.specs.Group.{longest_name, most_consumers};
ghost use Rattle.groups.specs.Bytes.{place_of_name, region_bytes};
ghost use Rattle.groups.specs.Parse.{group_in};
ghost use Rattle.groups.specs.Step.{with_name, pending_of, lacks_consumer};
ghost use Rattle.groups.specs.Answer.{SoundRegion, spot_from, with_consumer};
ghost use Rattle.groups_change.specs.Change.{without_consumer};

use crate::pieces::{move_places, name_field};
use groups::{CONSUMERS_AT, FIELD_BYTES, FIELDS_AT, MOST_CONSUMERS, Spot};

// A consumer would be made and 16 exist.
pub fn lacks_consumer(region: &[u8], name: &[u8]) -> bool
    requires { SoundRegion region.now }
    ensures { result ≡ lacks_consumer name.now (group_in region.now) }
{
    match groups::find_consumer(region, name) {
        Some(_) => false,
        None => MOST_CONSUMERS <= groups::consumer_count(region),
    }
}

// A new consumer at its place; the places of later ones move up in every entry.
fn insert_consumer(region: &mut [u8], name: &[u8], k: usize)
    requires { SoundRegion region.old × (length name.now ≤ longest_name) × (spot_from 0 name.now (group_in region.old).consumers ≡ Spot.New k) × (length (group_in region.old).consumers < most_consumers) }
    ensures { region.new ≡ region_bytes (with_consumer name.now (group_in region.old)) }
{
    let n = groups::consumer_count(region);
    let count = groups::pending_count(region);
    move_places(region, count, k, 1, 0);
    let field = name_field(name);
    octets::splice(
        region,
        FIELDS_AT + n * FIELD_BYTES,
        FIELDS_AT + k * FIELD_BYTES,
        0,
        &field,
    );
    region[CONSUMERS_AT] = (n + 1) as u8;
}

// The consumer's place, made if new.
pub fn make_consumer(region: &mut [u8], name: &[u8]) -> usize
    requires { SoundRegion region.old × (1 ≤ length name.now) × (length name.now ≤ longest_name) × (lacks_consumer name.now (group_in region.old) ≡ false) }
    ensures { (result ≡ place_of_name name.now (with_name name.now (group_in region.old).consumers)) × (result < most_consumers) × (region.new ≡ region_bytes (with_consumer name.now (group_in region.old))) }
{
    match groups::spot_of(region, name) {
        Spot::Known(k) => k,
        Spot::New(k) => {
            insert_consumer(region, name, k);
            k
        }
    }
}

// A consumer without entries; the places of later ones move down in every entry.
pub fn remove_consumer(region: &mut [u8], k: usize)
    requires { SoundRegion region.old × (k < length (group_in region.old).consumers) × (pending_of (get_or (group_in region.old).consumers k []) (group_in region.old).pending ≡ []) }
    ensures { region.new ≡ region_bytes (without_consumer (get_or (group_in region.old).consumers k []) (group_in region.old)) }
{
    let n = groups::consumer_count(region);
    let count = groups::pending_count(region);
    move_places(region, count, k + 1, 0, 1);
    octets::splice(
        region,
        FIELDS_AT + n * FIELD_BYTES,
        FIELDS_AT + k * FIELD_BYTES,
        FIELD_BYTES,
        b"",
    );
    region[CONSUMERS_AT] = (n - 1) as u8;
}
