// Which strings are integers, and the text of an integer. What each function answers is said in specs/.

#![tactic(auto)]

mod recognition;
mod text;

ghost use Rattle.std.specs.Prelude.{◌≡◌, ◌-◌, ◌^◌, ◌≤◌};

pub use recognition::{Recogniser, recognise};
pub use text::{natural_size, text_size, write_natural, write_sized, write_text};

// 2^63: a pattern below it stands for itself, the others for negative numbers.
const HALF: u64 = 9223372036854775808;

// From n to the pattern of −n, and back.
fn negated(n: u64) -> u64
    requires { 1 ≤ n }
    ensures { result ≡ 2 ^ 64 - n }
{
    18446744073709551615 - n + 1
}
