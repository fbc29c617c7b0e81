// The bodies of the groups that a sound area holds, region by region.

ghost use Rattle.std.specs.Prelude.{◌≡◌, map, ◌+◌, ◌≤◌, length};
ghost use Rattle.octets.specs.Place.{put};
ghost use Rattle.group_area.specs.Answer.{groups_in, SoundArea};
ghost use Rattle.snapshot.specs.Bytes.{group_part, bodies};
ghost use Rattle.save_contents.specs.Measured.{group_sizes};

use crate::GroupSizes;
use group_area::MOST_GROUPS;
use groups::REGION_BYTES;

// A free region begins with 0.
pub fn measure_groups(area: &[u8]) -> GroupSizes
    requires { SoundArea area.now }
    ensures { result ≡ group_sizes (groups_in area.now) }
{
    let mut size = [0usize; 8];
    for n in 0..MOST_GROUPS {
        let at = n * REGION_BYTES;
        if area[at] == 0 {
            return GroupSizes { n, size };
        }
        size[n] = group_body::body_size(&area[at..at + REGION_BYTES]);
    }
    GroupSizes {
        n: MOST_GROUPS,
        size,
    }
}

pub fn write_groups(area: &[u8], n: usize, out: &mut [u8], at: usize)
    requires { SoundArea area.now × (n ≡ length (groups_in area.now)) × (at + length (bodies (map group_part (groups_in area.now))) ≤ length out.old) }
    ensures { out.new ≡ put out.old at (bodies (map group_part (groups_in area.now))) }
{
    let mut to = at;
    for k in 0..n {
        let from = k * REGION_BYTES;
        to = group_body::write_body(&area[from..from + REGION_BYTES], out, to);
    }
}
