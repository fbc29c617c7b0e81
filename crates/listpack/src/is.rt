// Comparison of an integer with a string, without a copy.

ghost use Rattle.std.specs.Prelude.{◌≡◌};
ghost use Rattle.octets.specs.Compare.{same};
ghost use Rattle.decimal.specs.Text.{text_of};

// The string is the integer's text.
pub fn integer_is(p: u64, x: &[u8]) -> bool
    ensures { result ≡ same (text_of p) x.now }
{
    let found = decimal::recognise(x);
    match found {
        Some(q) => q == p,
        None => false,
    }
}
