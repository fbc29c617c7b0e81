// How a neighbour is told to C: a number, out-parameters, and a key in the output.

ghost use Rattle.std.specs.Prelude.{◌≡◌, ◌≤◌, length};
ghost use Rattle.keys.specs.Entries.{entry};
ghost use Rattle.keys.specs.Operation.{found};
ghost use Rattle.keys.specs.Answer.{neighbour_reply, IsShort};
ghost use Rattle.wallathi_index.specs.Export.{Tells};

use crate::NOT_FOUND;
use keys::{Neighbour, Refusal};

// The key goes to the start of the output.
fn tell_entry(key: &[u8], v: u32, output: &mut [u8], len: &mut u64, value: &mut u64) -> u32
    requires { length key.now ≤ length output.old }
    ensures { Tells (found (entry key.now v)) output.old len.old value.old result output.new len.new value.new }
{
    octets::copy_in(output, 0, key);
    *len = key.len() as u64;
    *value = v as u64;
    0
}

pub fn tell(
    r: Result<Option<Neighbour>, Refusal>,
    output: &mut [u8],
    len: &mut u64,
    value: &mut u64,
) -> u32
    requires { IsShort r × (length output.old ≡ 16) }
    ensures { Tells (neighbour_reply r) output.old len.old value.old result output.new len.new value.new }
{
    match r {
        Ok(Some(n)) => tell_entry(&n.key[0..n.len], n.value, output, len, value),
        Ok(None) => NOT_FOUND,
        Err(e) => e.number(),
    }
}
