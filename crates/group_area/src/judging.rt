// Is an area sound? Each region is judged by itself, and its name is compared with the one before.

ghost use Rattle.std.specs.Prelude.{◌≡◌, not, ◌+◌, ◌≤◌, length, drop, get_or, is_none};
ghost use Rattle.octets.specs.Compare.{comes_before};
ghost use Rattle.groups.specs.Group.{longest_name};
ghost use Rattle.groups.specs.Bytes.{field_bytes};
ghost use Rattle.groups.specs.Parse.{name_in};
ghost use Rattle.groups.specs.Area.{parse_area};

use crate::{AREA_BYTES, MOST_GROUPS};
use groups::REGION_BYTES;
use id::Id;

// Is the name of the region at a place above another?
fn is_above(s: &[u8], above: &[u8], at: usize) -> bool
    requires { (at + field_bytes ≤ length s.now) × (get_or s.now at 0 ≤ longest_name) }
    ensures { result ≡ comes_before above.now (name_in (drop at s.now)) }
{
    let n = octets::wide(s[at]) as usize;
    octets::comes_before(above, &s[at + 1..at + 1 + n])
}

// A region that begins with 0 has no name, so it and all after it must be free; these are looked at once.
pub fn judge(s: &[u8], last: Id) -> bool
    ensures { result ≡ not (is_none (parse_area last s.now)) }
{
    if s.len() != AREA_BYTES {
        return false;
    }
    let mut at = 0;
    let mut above: &[u8] = b"";
    for _ in 0..MOST_GROUPS {
        if s[at] == 0 {
            return octets::all_zero_from(s, at);
        }
        if !groups::is_region(&s[at..at + REGION_BYTES], last) {
            return false;
        }
        if !is_above(s, above, at) {
            return false;
        }
        let size = octets::wide(s[at]) as usize;
        above = &s[at + 1..at + 1 + size];
        at += REGION_BYTES;
    }
    true
}
