// The region of a group's name. The names rise, so the search ends at the first that is not below.

ghost use Rattle.std.specs.Prelude.{◌≡◌};
ghost use Rattle.groups.specs.Answer.{spot_from, place_in};
ghost use Rattle.groups.specs.Area.{names_of};
ghost use Rattle.group_area.specs.Answer.{groups_in, SoundArea};

use crate::MOST_GROUPS;
use groups::{REGION_BYTES, Spot};
use std::cmp::Ordering;

// The region that a name has, or would get. A free region begins with 0.
pub fn spot_of(s: &[u8], name: &[u8]) -> Spot
    requires { SoundArea s.now }
    ensures { result ≡ spot_from 0 name.now (names_of (groups_in s.now)) }
{
    let mut at = 0;
    for k in 0..MOST_GROUPS {
        let n = octets::wide(s[at]) as usize;
        if n == 0 {
            return Spot::New(k);
        }
        match octets::compare(name, &s[at + 1..at + 1 + n]) {
            Ordering::Less => return Spot::New(k),
            Ordering::Equal => return Spot::Known(k),
            Ordering::Greater => {}
        }
        at += REGION_BYTES;
    }
    Spot::New(MOST_GROUPS)
}

pub fn find(s: &[u8], name: &[u8]) -> Option<usize>
    requires { SoundArea s.now }
    ensures { result ≡ place_in name.now (names_of (groups_in s.now)) }
{
    match spot_of(s, name) {
        Spot::Known(k) => Some(k),
        Spot::New(_) => None,
    }
}
