// What the system hands over: the name and the file's bytes, of each at most one byte more than it may have. That byte is enough to be refused
// for, and the rest of a long file is not read.

ghost use Rattle.std.specs.Prelude.{◌≤◌, length};

use std::env::FillError;
use std::io::Read;
use std::rt::{Env, Files};
use std::{fs, str};

// A name has at most 1,000 bytes.
pub const NAME_BYTES: usize = 1001;

// A snapshot has at most 321,604 bytes.
pub const FILE_BYTES: usize = 321605;

// The longest path that is tried, in bytes.
const PATH_BYTES: usize = 4096;

// The second argument, whatever its bytes are, or as much of it as the buffer takes; nothing where it is missing.
pub fn name<R: Env>(rt: &R, buf: &mut [u8]) -> usize
    ensures { result ≤ length buf.new }
{
    match rt.arg(2, buf) {
        Ok(n) => n,
        Err(FillError::TooLong) => buf.len(),
        Err(FillError::NotPresent) => 0,
    }
}

// Whether the program was started with an argument of this number. One that the empty buffer does not hold is there too.
fn is_given<R: Env>(rt: &R, number: usize) -> bool {
    match rt.arg(number, &mut []) {
        Ok(_) => true,
        Err(FillError::TooLong) => true,
        Err(FillError::NotPresent) => false,
    }
}

// The bytes of the file that the first argument names. A file that cannot be opened, or not read to its end, gives none, and no bytes are no
// snapshot: it is refused with 16. So are fewer arguments than two, and more: nobody knows then which name is meant. A path that is not UTF-8
// counts as one that cannot be opened: paths of std are text.
pub fn file<R: Env + Files>(rt: &R, buf: &mut [u8]) -> usize
    ensures { result ≤ length buf.new }
{
    if !is_given(rt, 2) || is_given(rt, 3) {
        return 0;
    }
    let mut path = [0u8; PATH_BYTES];
    // A path that is longer than the buffer counts as one that cannot be opened.
    let Ok(n) = rt.arg(1, &mut path) else {
        return 0;
    };
    let Ok(path) = str::from_utf8(&path[..n]) else {
        return 0;
    };
    match fs::open(rt, path) {
        Ok(mut file) => read_all(&mut file, buf),
        Err(_) => 0,
    }
}

// Until the buffer is full or the file ends, however few bytes come with each read, as from a pipe. A walk: how far a step goes is read.
fn read_all<R: Read>(file: &mut R, buf: &mut [u8]) -> usize
    ensures { result ≤ length buf.new }
{
    let mut size = 0;
    while size < buf.len() {
        let Ok(more) = file.read(&mut buf[size..]) else {
            return 0;
        };
        if more == 0 {
            return size;
        }
        size += more;
    }
    size
}
