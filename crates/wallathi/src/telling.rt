// How a reply is told to C: a number, and out-parameters.

ghost use Rattle.std.specs.Prelude.{◌≡◌, [], ◌∷◌, get_or};
ghost use Rattle.wallathi.specs.Export.{bit};
ghost use Rattle.wallathi.specs.Telling.{code_by, numbers_by, Tells};

use id::Id;
use stream::Reply;

pub fn code_of(r: Reply) -> u32
    ensures { result ≡ code_by r }
{
    match r {
        Reply::Refused(refusal) => refusal.number(),
        Reply::Done => 0,
        Reply::Given(_) => 0,
        Reply::Counted(_) => 0,
        Reply::Written(_) => 0,
        Reply::Entry { .. } => 0,
        Reply::Reported { .. } => 0,
        Reply::NoIntegers { .. } => 35,
        Reply::Moved => 0,
        Reply::Nothing => 32,
        Reply::Absent => 33,
        Reply::NotMoved => 34,
    }
}

fn first_at(n: u64, k: usize, old: u64) -> u64
    ensures { result ≡ get_or (n ∷ []) k old }
{
    if k == 0 {
        return n;
    }
    old
}

fn pair_at(a: u64, b: u64, k: usize, old: u64) -> u64
    ensures { result ≡ get_or (a ∷ (b ∷ [])) k old }
{
    if k == 0 {
        return a;
    }
    if k == 1 {
        return b;
    }
    old
}

fn bit(b: bool) -> u64
    ensures { result ≡ bit b }
{
    if b {
        return 1;
    }
    0
}

fn entry_at(id: Id, time: u64, count: u64, lives: bool, k: usize, old: u64) -> u64
    ensures { result ≡ get_or (id.ms ∷ (id.seq ∷ (time ∷ (count ∷ (bit lives ∷ []))))) k old }
{
    if k == 2 {
        return time;
    }
    if k == 3 {
        return count;
    }
    if k == 4 {
        return bit(lives);
    }
    pair_at(id.ms, id.seq, k, old)
}

fn counts_at(lacking: u64, other: u64, integers: u64, sum: u64, k: usize, old: u64) -> u64
    ensures { result ≡ get_or (lacking ∷ (other ∷ (integers ∷ (sum ∷ [])))) k old }
{
    if k == 2 {
        return integers;
    }
    if k == 3 {
        return sum;
    }
    pair_at(lacking, other, k, old)
}

fn report_at(
    lacking: u64,
    other: u64,
    integers: u64,
    sum: u64,
    smallest: u64,
    largest: u64,
    k: usize,
    old: u64,
) -> u64
    ensures { result ≡ get_or (lacking ∷ (other ∷ (integers ∷ (sum ∷ (smallest ∷ (largest ∷ [])))))) k old }
{
    if k == 4 {
        return smallest;
    }
    if k == 5 {
        return largest;
    }
    counts_at(lacking, other, integers, sum, k, old)
}

// The reply's number at that place, or what the out-parameter held.
fn number_at(r: Reply, k: usize, old: u64) -> u64
    ensures { result ≡ get_or (numbers_by r) k old }
{
    match r {
        Reply::Refused(_) => old,
        Reply::Done => old,
        Reply::Given(id) => pair_at(id.ms, id.seq, k, old),
        Reply::Counted(n) => first_at(n, k, old),
        Reply::Written(n) => first_at(n as u64, k, old),
        Reply::Entry {
            id,
            time,
            count,
            lives,
        } => entry_at(id, time, count, lives, k, old),
        Reply::Reported {
            lacking,
            other,
            integers,
            sum,
            smallest,
            largest,
        } => report_at(lacking, other, integers, sum, smallest, largest, k, old),
        Reply::NoIntegers { lacking, other } => counts_at(lacking, other, 0, 0, k, old),
        Reply::Moved => old,
        Reply::Nothing => old,
        Reply::Absent => old,
        Reply::NotMoved => old,
    }
}

// A reply without a number.
pub fn tell(r: Reply) -> u32
    ensures { Tells r [] result [] }
{
    code_of(r)
}

// A count, or a length.
pub fn tell_number(r: Reply, number: &mut u64) -> u32
    ensures { Tells r (number.old ∷ []) result (number.new ∷ []) }
{
    *number = number_at(r, 0, *number);
    code_of(r)
}

pub fn tell_id(r: Reply, ms: &mut u64, seq: &mut u64) -> u32
    ensures { Tells r (ms.old ∷ (seq.old ∷ [])) result (ms.new ∷ (seq.new ∷ [])) }
{
    *ms = number_at(r, 0, *ms);
    *seq = number_at(r, 1, *seq);
    code_of(r)
}

// A pending entry, and whether its message lives.
pub fn tell_entry(
    r: Reply,
    ms: &mut u64,
    seq: &mut u64,
    time: &mut u64,
    count: &mut u64,
    lives: &mut u64,
) -> u32
    ensures { Tells r (ms.old ∷ (seq.old ∷ (time.old ∷ (count.old ∷ (lives.old ∷ []))))) result (ms.new ∷ (seq.new ∷ (time.new ∷ (count.new ∷ (lives.new ∷ []))))) }
{
    *ms = number_at(r, 0, *ms);
    *seq = number_at(r, 1, *seq);
    *time = number_at(r, 2, *time);
    *count = number_at(r, 3, *count);
    *lives = number_at(r, 4, *lives);
    code_of(r)
}

// A report; with no integer the last two keep what they held.
pub fn tell_report(
    r: Reply,
    lacking: &mut u64,
    other: &mut u64,
    integers: &mut u64,
    sum: &mut u64,
    smallest: &mut u64,
    largest: &mut u64,
) -> u32
    ensures { Tells r (lacking.old ∷ (other.old ∷ (integers.old ∷ (sum.old ∷ (smallest.old ∷ (largest.old ∷ [])))))) result (lacking.new ∷ (other.new ∷ (integers.new ∷ (sum.new ∷ (smallest.new ∷ (largest.new ∷ [])))))) }
{
    *lacking = number_at(r, 0, *lacking);
    *other = number_at(r, 1, *other);
    *integers = number_at(r, 2, *integers);
    *sum = number_at(r, 3, *sum);
    *smallest = number_at(r, 4, *smallest);
    *largest = number_at(r, 5, *largest);
    code_of(r)
}
