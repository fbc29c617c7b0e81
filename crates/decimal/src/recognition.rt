// Which strings are integers: a state takes the bytes one by one and answers for those so far.

ghost use Rattle.std.specs.Prelude.{◌≡◌, ◌≤◌, length};
ghost use Rattle.decimal.specs.Integer.{pattern_of};
ghost use Rattle.decimal.specs.Steps.{is_digit_from, grown, stepped, so_far, after};
ghost use Rattle.decimal.specs.declared.recognition.Prefix.TheVariants.{Empty};

use crate::{HALF, negated};

// What the bytes so far are.
#[derive(Clone, Copy)]
pub enum Prefix {
    Empty,
    Minus,
    // Whether a minus stands before it, whether it is 0, after which no digit may follow, and the number.
    Number(bool, bool, u64),
    // No integer, whatever follows.
    Failed,
}

#[derive(Clone, Copy)]
pub struct Recogniser(pub Prefix);

// 10^18: from here on a number has no room for one more digit.
const FULL: u64 = 1000000000000000000;

fn is_digit(b: u8, low: u8) -> bool
    ensures { result ≡ is_digit_from low b }
{
    if b < low {
        return false;
    }
    b <= b'9'
}

// A digit more, from `low` on.
fn grown(negative: bool, zero: bool, n: u64, low: u8, b: u8) -> Prefix
    requires { 48 ≤ low }
    ensures { result ≡ grown negative zero n low b }
{
    if zero {
        return Prefix::Failed;
    }
    if FULL <= n {
        return Prefix::Failed;
    }
    if is_digit(b, low) {
        return Prefix::Number(negative, zero, 10 * n + octets::wide(b - b'0'));
    }
    Prefix::Failed
}

impl Recogniser {
    pub fn new() -> Recogniser
        ensures { result.0 ≡ Empty }
    {
        Recogniser(Prefix::Empty)
    }

    // One byte more.
    pub fn step(self, byte: u8) -> Recogniser
        ensures { result.0 ≡ stepped self.0 byte }
    {
        let prefix = self.0;
        match prefix {
            Prefix::Number(negative, zero, n) => Recogniser(grown(negative, zero, n, b'0', byte)),
            Prefix::Empty => {
                // Most strings are no integers by their first byte, which then is mostly above the digits.
                if b'9' < byte {
                    return Recogniser(Prefix::Failed);
                }
                if byte == b'0' {
                    return Recogniser(Prefix::Number(false, true, 0));
                }
                if byte == b'-' {
                    return Recogniser(Prefix::Minus);
                }
                Recogniser(grown(false, false, 0, b'1', byte))
            }
            Prefix::Minus => Recogniser(grown(true, false, 0, b'1', byte)),
            Prefix::Failed => Recogniser(Prefix::Failed),
        }
    }

    // For the bytes so far.
    pub fn answer(self) -> Option<u64>
        ensures { result ≡ so_far self.0 }
    {
        let prefix = self.0;
        match prefix {
            Prefix::Number(negative, _, n) => {
                if negative {
                    if n == 0 {
                        return None;
                    }
                    if HALF < n {
                        return None;
                    }
                    return Some(negated(n));
                }
                if HALF <= n {
                    return None;
                }
                Some(n)
            }
            Prefix::Empty => None,
            Prefix::Minus => None,
            Prefix::Failed => None,
        }
    }
}

// One walk, a step a byte, until the state has failed. The first step stands before the loop, where the compiler knows the state.
fn walk(s: &[u8]) -> Option<u64>
    requires { length s.now ≤ 20 }
    ensures { result ≡ so_far (after Empty s.now) }
{
    if s.len() == 0 {
        return None;
    }
    let mut state = Recogniser::new().step(s[0]);
    let mut prefix = state.0;
    if let Prefix::Failed = prefix {
        return None;
    }
    for i in 1..s.len() {
        state = state.step(s[i]);
        prefix = state.0;
        if let Prefix::Failed = prefix {
            return None;
        }
    }
    state.answer()
}

// No integer has more than 20 bytes, so a longer string takes no step.
pub fn recognise(s: &[u8]) -> Option<u64>
    ensures { result ≡ pattern_of s.now }
{
    if 20 < s.len() {
        return None;
    }
    walk(s)
}
