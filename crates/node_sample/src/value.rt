// A value, as it counts in a report. An integer i stands as i + 1,000,000,000, so that those that count are natural numbers in their order.

ghost use Rattle.std.specs.Prelude.{◌≡◌, Some};
ghost use Rattle.decimal.specs.Integer.{pattern_of};
ghost use Rattle.listpack.specs.Known.{ElementAt, string_at};
ghost use Rattle.node_sample.specs.Sample.{sample_of};

// Integers from -BOUND to BOUND count.
pub const BOUND: u64 = 1_000_000_000;

// The field is lacking; something other than an integer that counts; such an integer, raised by BOUND.
#[derive(Clone, Copy)]
pub enum Sample {
    Lacking,
    Other,
    Integer(u64),
}

// The sample of the integer with a pattern.
fn sample_of(p: u64) -> Sample
    ensures { result ≡ sample_of (Some p) }
{
    let n = std::num::wrapping_add_u64(p, BOUND);
    if 2 * BOUND < n {
        return Sample::Other;
    }
    Sample::Integer(n)
}

// The sample of the element there.
pub fn sample_at(s: &[u8], at: usize) -> Sample
    requires { ElementAt s.now at }
    ensures { result ≡ sample_of (pattern_of (string_at s.now at)) }
{
    match listpack::known_stored(s, at) {
        Some(p) => sample_of(p),
        None => Sample::Other,
    }
}
