// What the benchmark and the tests under host/bench call of integer recognition, exported to C.

#![tactic(auto)]

ghost use Rattle.std.specs.Prelude.{◌≡◌};
ghost use Rattle.decimal.specs.Integer.{pattern_of};
ghost use Rattle.bench_decimal.specs.Told.{code_of, over};

use decimal::Recogniser;

// 1 and the pattern for an integer, 0 for any other string.
fn told(found: Option<u64>, pattern: &mut u64) -> u32
    ensures { (result ≡ code_of found) × (pattern.new ≡ over found pattern.old) }
{
    match found {
        Some(p) => {
            *pattern = p;
            1
        }
        None => 0,
    }
}

#[unsafe(no_mangle)]
pub extern "C" fn wallathi_bench_recognise(s: &[u8], pattern: &mut u64) -> u32
    ensures { (result ≡ code_of (pattern_of s.now)) × (pattern.new ≡ over (pattern_of s.now) pattern.old) }
{
    told(decimal::recognise(s), pattern)
}

// A step a byte, however many there are and also where the state has failed.
fn answer_after(s: &[u8]) -> Option<u64>
    ensures { result ≡ pattern_of s.now }
{
    let mut state = Recogniser::new();
    for &b in s {
        state = state.step(b);
    }
    state.answer()
}

#[unsafe(no_mangle)]
pub extern "C" fn wallathi_bench_steps(s: &[u8], pattern: &mut u64) -> u32
    ensures { (result ≡ code_of (pattern_of s.now)) × (pattern.new ≡ over (pattern_of s.now) pattern.old) }
{
    told(answer_after(s), pattern)
}
