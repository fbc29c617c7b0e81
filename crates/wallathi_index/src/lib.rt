// The radix index by itself, for C: a record of 6,658 lent bytes, and one function for each operation. What each answers and leaves is
// said in specs/Export.

#![tactic(auto)]

mod telling;

ghost use Rattle.std.specs.Prelude.{◌≡◌, [], Some};
ghost use Rattle.keys.specs.Operation.{put, remove, find, first_at_or_above, last_at_or_below, code_of, reply_in};
ghost use Rattle.index_bytes.specs.Held.{record_size, entries_in, record_bytes};
ghost use Rattle.wallathi_index.specs.Export.{out_of, Follows, Tells};

use telling::tell;

pub const RECORD_BYTES: usize = 6658;

// No refusal: the key, or a neighbour, is not there.
const NOT_FOUND: u32 = 32;

// The lent bytes of an index.
pub type Record = [u8; RECORD_BYTES];

// How many bytes a record has.
#[unsafe(no_mangle)]
pub extern "C" fn wallathi_index_record_bytes() -> u64
    ensures { result ≡ record_size }
{
    RECORD_BYTES as u64
}

#[unsafe(no_mangle)]
pub extern "C" fn wallathi_index_set_up(bytes: &mut Record) -> u32
    ensures { (result ≡ 0) × ((bytes.new ≡ record_bytes []) × (entries_in bytes.new ≡ Some [])) }
{
    index_bytes::empty(bytes);
    0
}

#[unsafe(no_mangle)]
pub extern "C" fn wallathi_index_put(bytes: &mut Record, key: &[u8], value: u32) -> u32
    ensures { Follows (put key.now value) (entries_in bytes.old) bytes.old result bytes.new }
{
    match index_bytes::put(bytes, key, value) {
        Ok(()) => 0,
        Err(e) => e.number(),
    }
}

#[unsafe(no_mangle)]
pub extern "C" fn wallathi_index_remove(bytes: &mut Record, key: &[u8], count: &mut u64) -> u32
    ensures { Follows (remove key.now) (entries_in bytes.old) bytes.old result bytes.new × (count.new ≡ out_of (reply_in (remove key.now) (entries_in bytes.old)) count.old) }
{
    match index_bytes::remove(bytes, key) {
        Ok(n) => {
            *count = n as u64;
            0
        }
        Err(e) => e.number(),
    }
}

#[unsafe(no_mangle)]
pub extern "C" fn wallathi_index_find(bytes: &Record, key: &[u8], value: &mut u64) -> u32
    ensures { (result ≡ code_of (reply_in (find key.now) (entries_in bytes.now))) × (value.new ≡ out_of (reply_in (find key.now) (entries_in bytes.now)) value.old) }
{
    match index_bytes::find(bytes, key) {
        Ok(Some(v)) => {
            *value = v as u64;
            0
        }
        Ok(None) => NOT_FOUND,
        Err(e) => e.number(),
    }
}

// The output has room for every key.
#[unsafe(no_mangle)]
pub extern "C" fn wallathi_index_first_at_or_above(
    bytes: &Record,
    key: &[u8],
    output: &mut [u8; 16],
    len: &mut u64,
    value: &mut u64,
) -> u32
    ensures { Tells (reply_in (first_at_or_above key.now) (entries_in bytes.now)) output.old len.old value.old result output.new len.new value.new }
{
    tell(
        index_bytes::first_at_or_above(bytes, key),
        output,
        len,
        value,
    )
}

#[unsafe(no_mangle)]
pub extern "C" fn wallathi_index_last_at_or_below(
    bytes: &Record,
    key: &[u8],
    output: &mut [u8; 16],
    len: &mut u64,
    value: &mut u64,
) -> u32
    ensures { Tells (reply_in (last_at_or_below key.now) (entries_in bytes.now)) output.old len.old value.old result output.new len.new value.new }
{
    tell(
        index_bytes::last_at_or_below(bytes, key),
        output,
        len,
        value,
    )
}
