// Operations that may write the bytes: all of them where the entries change, else none. Refusals in rising order of their numbers: 2, then
// 3, then 18.

ghost use Rattle.std.specs.Prelude.{◌≡◌, true, [], length, Some};
ghost use Rattle.keys.specs.Entries.{is_map};
ghost use Rattle.keys.specs.Operation.{put, remove, removed, done};
ghost use Rattle.keys.specs.Answer.{reply_of};
ghost use Rattle.keys.specs.Table.{tabled};
ghost use Rattle.keys.specs.Listing.{IsSound};
ghost use Rattle.index_bytes.specs.Held.{record_size, entries_in, record_bytes};
ghost use Rattle.index_bytes.specs.Promise.{ChangesIn};

use keys::{Refusal, Table, is_key, is_row, rank_of, with_row, without_row};

// The record of no entries.
pub fn empty(bytes: &mut [u8])
    requires { length bytes.old ≡ record_size }
    ensures { (bytes.new ≡ record_bytes []) × (entries_in bytes.new ≡ Some []) }
{
    build(keys::no_rows(), bytes);
}

// The record of a table's rows.
pub fn build(t: Table, bytes: &mut [u8])
    requires { (is_map (tabled t) ≡ true) × (length bytes.old ≡ record_size) }
    ensures { (bytes.new ≡ record_bytes (tabled t)) × (entries_in bytes.new ≡ Some (tabled t)) }
{
    radix_bytes::build(t, bytes);
}

// Put, where the table t has the entries of the bytes.
fn put_in(bytes: &mut [u8], t: Table, key: &[u8], value: u32) -> Result<(), Refusal>
    requires { (length bytes.old ≡ record_size) × (entries_in bytes.old ≡ Some (tabled t)) }
    ensures { ChangesIn (put key.now value) (Some (tabled t)) bytes.old (reply_of (λ _. done) result) bytes.new }
{
    if !is_key(key) {
        return Err(Refusal::BadKey);
    }
    let n = t.n;
    let i = rank_of(t, key);
    if is_row(t, i, key) {
        build(with_row(t, i, i + 1, key, value), bytes);
        return Ok(());
    }
    if 64 <= n {
        return Err(Refusal::Full);
    }
    build(with_row(t, i, i, key, value), bytes);
    Ok(())
}

// Remove, where the table t has the entries of the bytes.
fn remove_in(bytes: &mut [u8], t: Table, key: &[u8]) -> Result<u32, Refusal>
    requires { (length bytes.old ≡ record_size) × (entries_in bytes.old ≡ Some (tabled t)) }
    ensures { ChangesIn (remove key.now) (Some (tabled t)) bytes.old (reply_of removed result) bytes.new }
{
    if !is_key(key) {
        return Err(Refusal::BadKey);
    }
    let i = rank_of(t, key);
    if is_row(t, i, key) {
        build(without_row(t, i), bytes);
        return Ok(1);
    }
    Ok(0)
}

// An existing key's value is replaced.
pub fn put(bytes: &mut [u8], key: &[u8], value: u32) -> Result<(), Refusal>
    requires { length bytes.old ≡ record_size }
    ensures { ChangesIn (put key.now value) (entries_in bytes.old) bytes.old (reply_of (λ _. done) result) bytes.new }
{
    let Some(t) = radix_rows::list(bytes) else {
        return Err(Refusal::Damaged);
    };
    put_in(bytes, t, key, value)
}

// Answers 1, or 0 where the key is not held.
pub fn remove(bytes: &mut [u8], key: &[u8]) -> Result<u32, Refusal>
    requires { length bytes.old ≡ record_size }
    ensures { ChangesIn (remove key.now) (entries_in bytes.old) bytes.old (reply_of removed result) bytes.new }
{
    let Some(t) = radix_rows::list(bytes) else {
        return Err(Refusal::Damaged);
    };
    remove_in(bytes, t, key)
}

pub fn put_sound(bytes: &mut [u8], key: &[u8], value: u32) -> Result<(), Refusal>
    requires { (length bytes.old ≡ record_size) × IsSound (entries_in bytes.old) }
    ensures { ChangesIn (put key.now value) (entries_in bytes.old) bytes.old (reply_of (λ _. done) result) bytes.new }
{
    let t = radix_rows::table_of(bytes).unwrap();
    put_in(bytes, t, key, value)
}

pub fn remove_sound(bytes: &mut [u8], key: &[u8]) -> Result<u32, Refusal>
    requires { (length bytes.old ≡ record_size) × IsSound (entries_in bytes.old) }
    ensures { ChangesIn (remove key.now) (entries_in bytes.old) bytes.old (reply_of removed result) bytes.new }
{
    let t = radix_rows::table_of(bytes).unwrap();
    remove_in(bytes, t, key)
}
