// A group made and a group destroyed: the regions after it move by one.

ghost use Rattle.std.specs.Prelude.{◌≡◌, ◌≤◌, length};
ghost use Rattle.std.specs.Result.{result_err};
ghost use Rattle.groups.specs.declared.Spot.TheVariants.{New};
ghost use Rattle.groups.specs.Group.{longest_name};
ghost use Rattle.groups.specs.Bytes.{region_bytes, region_size};
ghost use Rattle.groups.specs.Step.{new_group};
ghost use Rattle.groups.specs.Answer.{spot_from};
ghost use Rattle.groups.specs.Area.{names_of};
ghost use Rattle.group_area.specs.Answer.{groups_in, SoundArea, refusal_to_create, created_bytes, refusal_to_destroy, destroyed_bytes};

use crate::finding::spot_of;
use groups::{DELIVERED_AT, REGION_BYTES, Spot};
use id::Id;
use refusal::Refusal;

// The last of the eight regions.
const LAST_REGION: usize = 50540;

fn write_new(r: &mut [u8], name: &[u8], start: Id)
    requires { (length r.old ≡ region_size) × (length name.now ≤ longest_name) }
    ensures { r.new ≡ region_bytes (new_group name.now start) }
{
    octets::zero(r, 0, REGION_BYTES);
    r[0] = name.len() as u8;
    octets::copy_in(r, 1, name);
    id::write_id(r, DELIVERED_AT, start);
}

// At the region that the name would get.
fn create_at(s: &mut [u8], k: usize, name: &[u8], start: Id) -> Result<(), Refusal>
    requires { SoundArea s.old × (1 ≤ length name.now) × (length name.now ≤ longest_name) × (spot_from 0 name.now (names_of (groups_in s.old)) ≡ New k) }
    ensures { (result_err result ≡ refusal_to_create name.now (groups_in s.old)) × (s.new ≡ created_bytes (result_err result) name.now start s.old) }
{
    if s[LAST_REGION] != 0 {
        return Err(Refusal::MostGroups);
    }
    let at = k * REGION_BYTES;
    octets::move_within(s, at, at + REGION_BYTES, LAST_REGION - at);
    write_new(&mut s[at..at + REGION_BYTES], name, start);
    Ok(())
}

pub fn create(s: &mut [u8], name: &[u8], start: Id) -> Result<(), Refusal>
    requires { SoundArea s.old × (1 ≤ length name.now) × (length name.now ≤ longest_name) }
    ensures { (result_err result ≡ refusal_to_create name.now (groups_in s.old)) × (s.new ≡ created_bytes (result_err result) name.now start s.old) }
{
    match spot_of(s, name) {
        Spot::Known(_) => Err(Refusal::GroupExists),
        Spot::New(k) => create_at(s, k, name, start),
    }
}

pub fn destroy(s: &mut [u8], name: &[u8]) -> Result<(), Refusal>
    requires { SoundArea s.old }
    ensures { (result_err result ≡ refusal_to_destroy name.now (groups_in s.old)) × (s.new ≡ destroyed_bytes (result_err result) name.now s.old) }
{
    match spot_of(s, name) {
        Spot::New(_) => Err(Refusal::NoGroup),
        Spot::Known(k) => {
            let at = k * REGION_BYTES;
            octets::move_within(s, at + REGION_BYTES, at, LAST_REGION - at);
            octets::zero(s, LAST_REGION, REGION_BYTES);
            Ok(())
        }
    }
}
