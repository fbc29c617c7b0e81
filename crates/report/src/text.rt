// The lines that are printed. The text of a number has at most 20 bytes, so a line has at most 21. `decimal` writes it, whose text
// specs/Printed names: `write!` would be no plainer, since its text would have to be proved the same.

ghost use Rattle.std.specs.Prelude.{[], ◌∷◌, ◌+◌, ◌≤◌, length};
ghost use Rattle.decimal.specs.Text.{text_of};
ghost use Rattle.report.specs.Printed.{none_text};
ghost use Rattle.report.specs.Written.{reply_texts, Writes};

use stream::Reply;

// A number by its 64-bit pattern.
fn number(d: &mut [u8], at: usize, p: u64) -> usize
    requires { at + 21 ≤ length d.old }
    ensures { Writes d.old at (text_of p ∷ []) d.new result }
{
    let end = at + decimal::text_size(p);
    decimal::write_text(d, at, p);
    d[end] = b'\n';
    end + 1
}

fn none(d: &mut [u8], at: usize) -> usize
    requires { at + 21 ≤ length d.old }
    ensures { Writes d.old at (none_text ∷ []) d.new result }
{
    octets::copy_in(d, at, b"none\n");
    at + 5
}

fn counts(d: &mut [u8], lacking: u64, other: u64, integers: u64, sum: u64) -> usize
    requires { 126 ≤ length d.old }
    ensures { Writes d.old 0 (text_of lacking ∷ (text_of other ∷ (text_of integers ∷ (text_of sum ∷ [])))) d.new result }
{
    let at = number(d, 0, lacking);
    let at = number(d, at, other);
    let at = number(d, at, integers);
    number(d, at, sum)
}

fn extremes(d: &mut [u8], at: usize, smallest: u64, largest: u64) -> usize
    requires { (at ≤ 84) × (126 ≤ length d.old) }
    ensures { Writes d.old at (text_of smallest ∷ (text_of largest ∷ [])) d.new result }
{
    let at = number(d, at, smallest);
    number(d, at, largest)
}

fn no_extremes(d: &mut [u8], at: usize) -> usize
    requires { (at ≤ 84) × (126 ≤ length d.old) }
    ensures { Writes d.old at (none_text ∷ (none_text ∷ [])) d.new result }
{
    let at = none(d, at);
    none(d, at)
}

// Six lines, or one. There are no other replies to a report.
pub fn write(d: &mut [u8], r: Reply) -> usize
    requires { 126 ≤ length d.old }
    ensures { Writes d.old 0 (reply_texts r) d.new result }
{
    match r {
        Reply::Refused(refusal) => number(d, 0, refusal.number() as u64),
        Reply::Reported {
            lacking,
            other,
            integers,
            sum,
            smallest,
            largest,
        } => {
            let at = counts(d, lacking, other, integers, sum);
            extremes(d, at, smallest, largest)
        }
        Reply::NoIntegers { lacking, other } => {
            let at = counts(d, lacking, other, 0, 0);
            no_extremes(d, at)
        }
        Reply::Done => 0,
        Reply::Given(_) => 0,
        Reply::Counted(_) => 0,
        Reply::Written(_) => 0,
        Reply::Entry { .. } => 0,
        Reply::Moved => 0,
        Reply::Nothing => 0,
        Reply::Absent => 0,
        Reply::NotMoved => 0,
    }
}
