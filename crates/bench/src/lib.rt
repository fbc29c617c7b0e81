// What the benchmark under host/bench calls of listpacks, exported to C: the reader and the writers of whole ones.

#![tactic(auto)]

ghost use Rattle.std.specs.Prelude.{◌≡◌, ◌+◌, ◌≤◌, length};
ghost use Rattle.octets.specs.Pick.{pick};
ghost use Rattle.bench.specs.Whole.{holds_strings};

// The most elements that a header can count.
const MOST: u64 = 65535;

// The whole slice is a listpack, whose strings are read as those of a message.
fn is_listpack(s: &[u8]) -> bool
    ensures { result ≡ holds_strings s.now }
{
    if s.len() < 7 {
        return false;
    }
    if listpack::read_total(s) != s.len() as u64 {
        return false;
    }
    let count = listpack::read_count(s) as usize;
    listpack::end_at(s, listpack::strings_end(s, 6, count))
}

// 1 where the whole slice is a listpack, and 0 where it is not.
#[unsafe(no_mangle)]
pub extern "C" fn wallathi_bench_check(s: &[u8]) -> u32
    ensures { result ≡ pick (holds_strings s.now) 1 0 }
{
    u32::from(is_listpack(s))
}

// The end byte at `at`, where the elements end, and the header. The answer is the listpack's size.
fn close(d: &mut [u8], at: usize, count: u64) -> u64
    requires { (6 ≤ at) × (at + 1 ≤ length d.old) }
    ensures { result ≡ at + 1 }
{
    let total = (at + 1) as u64;
    listpack::write_header(d, total, count);
    d[at] = 255;
    total
}

// A listpack of the integers first, first + step, .. modulo 2^64, as many as fit. The answer is its size, or 0 where no listpack fits.
#[unsafe(no_mangle)]
pub extern "C" fn wallathi_bench_write_integers(d: &mut [u8], first: u64, step: u64) -> u64
    ensures { result ≤ length d.old }
{
    if d.len() < 7 {
        return 0;
    }
    let mut at = 6;
    let mut p = first;
    for count in 0..MOST {
        if d.len() - at <= listpack::integer_size(p) {
            return close(d, at, count);
        }
        at = listpack::write_integer(d, at, p);
        p = p.wrapping_add(step);
    }
    close(d, at, MOST)
}

// A listpack of as many copies of the text as fit. The answer is its size, or 0 where no listpack fits or the text has no element.
#[unsafe(no_mangle)]
pub extern "C" fn wallathi_bench_write_texts(d: &mut [u8], text: &[u8]) -> u64
    ensures { result ≤ length d.old }
{
    if d.len() < 7 {
        return 0;
    }
    if 4096 <= text.len() {
        return 0;
    }
    let size = listpack::element_size(text);
    let mut at = 6;
    for count in 0..MOST {
        if d.len() - at <= size {
            return close(d, at, count);
        }
        at = listpack::write_string(d, at, text);
    }
    close(d, at, MOST)
}
