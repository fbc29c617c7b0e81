// Bytes put at a place of a slice: copied in, cleared, moved within it, spliced.

ghost use Rattle.std.specs.Prelude.{◌≡◌, ◌+◌, ◌≤◌, length};
ghost use Rattle.octets.specs.Bytes.{zeros};
ghost use Rattle.octets.specs.Place.{area, put, spliced, spliced_end};

// By hand: std's copy_from_slice is a call of memmove, which not every archive needs from outside (docs/DESIGN-PASS.md).
pub fn copy_in(d: &mut [u8], at: usize, s: &[u8])
    requires { at + length s.now ≤ length d.old }
    ensures { d.new ≡ put d.old at s.now }
{
    for i in 0..s.len() {
        d[at + i] = s[i];
    }
}

pub fn zero(d: &mut [u8], at: usize, n: usize)
    requires { at + n ≤ length d.old }
    ensures { d.new ≡ put d.old at (zeros n) }
{
    d[at..at + n].fill(0);
}

// To a lower place: from the first byte on, so that no byte is overwritten before it is read. Two loops in place of std's copy_within, since
// the edit move_reads_what_it_wrote speaks of the direction.
fn move_down(s: &mut [u8], from: usize, to: usize, n: usize)
    requires { (from + n ≤ length s.old) × (to ≤ from) }
    ensures { s.new ≡ put s.old to (area from n s.old) }
{
    for i in 0..n {
        s[to + i] = s[from + i];
    }
}

// To a higher place: from the last byte back.
fn move_up(s: &mut [u8], from: usize, to: usize, n: usize)
    requires { (to + n ≤ length s.old) × (from ≤ to) }
    ensures { s.new ≡ put s.old to (area from n s.old) }
{
    for k in (0..n).rev() {
        s[to + k] = s[from + k];
    }
}

// The two places may overlap.
pub fn move_within(s: &mut [u8], from: usize, to: usize, n: usize)
    requires { (from + n ≤ length s.old) × (to + n ≤ length s.old) }
    ensures { s.new ≡ put s.old to (area from n s.old) }
{
    if to <= from {
        move_down(s, from, to, n);
    } else {
        move_up(s, from, to, n);
    }
}

// The rest is moved, the new bytes copied in, and what is no longer in use cleared. The answer is how many bytes are in use.
pub fn splice(s: &mut [u8], used: usize, at: usize, gone: usize, new: &[u8]) -> usize
    requires { (at + gone ≤ used) × (used ≤ length s.old) × (spliced_end used at gone new.now ≤ length s.old) }
    ensures { (result ≡ spliced_end used at gone new.now) × (s.new ≡ spliced s.old used at gone new.now) }
{
    let from = at + gone;
    let to = at + new.len();
    let end = to + (used - from);
    move_within(s, from, to, used - from);
    copy_in(s, at, new);
    if end < used {
        zero(s, end, used - end);
    }
    end
}
