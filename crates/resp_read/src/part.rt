// Numbers, heads and bulk strings at a place. Each answer says the place after it.

ghost use Rattle.std.specs.Prelude.{◌≡◌, ◌≤◌};
ghost use Rattle.resp_read.specs.Answer.{line_end, digits_at, number_at, head_at, short_by, bulk_at};

// A number, and the place after it.
#[derive(Clone, Copy)]
pub struct Found {
    pub value: u64,
    pub next: usize,
}

// The digits that follow those of `first`.
fn digits(s: &[u8], at: usize, first: u64) -> Option<Found>
    ensures { result ≡ digits_at s.now first at }
{
    let mut n = first;
    for i in at..s.len() {
        let b = octets::wide(s[i]);
        if b < 48 {
            return Some(Found { value: n, next: i });
        }
        if 57 < b {
            return Some(Found { value: n, next: i });
        }
        if 1844674407370955161 < n {
            return None;
        }
        if u64::MAX - 10 * n < b - 48 {
            return None;
        }
        n = 10 * n + (b - 48);
    }
    Some(Found {
        value: n,
        next: s.len(),
    })
}

// Without leading zeros.
pub fn number(s: &[u8], at: usize) -> Option<Found>
    ensures { result ≡ number_at s.now at }
{
    if s.len() <= at {
        return None;
    }
    let b = octets::wide(s[at]);
    if b < 48 {
        return None;
    }
    if 57 < b {
        return None;
    }
    if b == 48 {
        return Some(Found {
            value: 0,
            next: at + 1,
        });
    }
    digits(s, at + 1, b - 48)
}

// CR LF.
pub fn line_end(s: &[u8], at: usize) -> Option<usize>
    ensures { result ≡ line_end s.now at }
{
    if s.len() < 2 {
        return None;
    }
    if s.len() - 2 < at {
        return None;
    }
    if s[at] != 13 {
        return None;
    }
    if s[at + 1] != 10 {
        return None;
    }
    Some(at + 2)
}

pub fn head(s: &[u8], at: usize, b: u8) -> Option<Found>
    ensures { result ≡ head_at s.now at b }
{
    if s.len() <= at {
        return None;
    }
    if s[at] != b {
        return None;
    }
    let n = number(s, at + 1)?;
    let next = line_end(s, n.next)?;
    Some(Found {
        value: n.value,
        next,
    })
}

// The digits of a length. Digits more only make it greater, so it is refused where it passes 1,000. Beside `digits`, `number` and `head`
// for speed: one reader with a constant limit was proved, and read whole replies in 1.11 to 1.15 of the time.
fn length_digits(s: &[u8], at: usize, first: u64) -> Option<Found>
    requires { first ≤ 1000 }
    ensures { result ≡ short_by (digits_at s.now first at) }
{
    let mut n = first;
    for i in at..s.len() {
        let b = octets::wide(s[i]);
        if b < 48 {
            return Some(Found { value: n, next: i });
        }
        if 57 < b {
            return Some(Found { value: n, next: i });
        }
        n = 10 * n + (b - 48);
        if 1000 < n {
            return None;
        }
    }
    Some(Found {
        value: n,
        next: s.len(),
    })
}

fn length_number(s: &[u8], at: usize) -> Option<Found>
    ensures { result ≡ short_by (number_at s.now at) }
{
    if s.len() <= at {
        return None;
    }
    let b = octets::wide(s[at]);
    if b < 48 {
        return None;
    }
    if 57 < b {
        return None;
    }
    if 48 < b {
        return length_digits(s, at + 1, b - 48);
    }
    Some(Found {
        value: 0,
        next: at + 1,
    })
}

// The head of a bulk string, with a length of at most 1,000.
fn length_head(s: &[u8], at: usize) -> Option<Found>
    ensures { result ≡ short_by (head_at s.now at 36) }
{
    if s.len() <= at {
        return None;
    }
    if s[at] != resp::BULK {
        return None;
    }
    let n = length_number(s, at + 1)?;
    let next = line_end(s, n.next)?;
    Some(Found {
        value: n.value,
        next,
    })
}

// The length of a bulk string, which begins after the head.
pub fn bulk(s: &[u8], at: usize) -> Option<usize>
    ensures { result ≡ bulk_at s.now at }
{
    let n = length_head(s, at)?;
    if ((s.len() - n.next) as u64) < n.value {
        return None;
    }
    let len = n.value as usize;
    line_end(s, n.next + len)?;
    Some(len)
}
