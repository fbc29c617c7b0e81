// Where a walk over the elements stands, and where it ends.

ghost use Rattle.std.specs.Prelude.{◌≡◌, [], ◌∷◌, drop};
ghost use Rattle.octets.specs.Compare.{same};

// Where the next element starts, and how many are left.
#[derive(Clone, Copy)]
pub struct Cursor {
    pub at: usize,
    pub left: usize,
}

// The end byte stands there, and nothing after it.
pub fn end_at(s: &[u8], at: usize) -> bool
    ensures { result ≡ same (drop at s.now) (255 ∷ []) }
{
    if s.len() <= at {
        return false;
    }
    if s.len() - at != 1 {
        return false;
    }
    s[at] == 255
}
