// Entries of a region: one written, one less, those of a consumer taken out.

ghost use Rattle.std.specs.Prelude.{◌≡◌, [], ◌+◌, ◌*◌, ◌≤◌, ◌<◌, length, drop, get_or};
ghost use Rattle.octets.specs.Bytes.{le};
ghost use Rattle.octets.specs.Place.{area, put};
ghost use Rattle.id.specs.Bytes.{id_bytes};
ghost use Rattle.groups.specs.Group.{most_pending};
ghost use Rattle.groups.specs.Bytes.{region_bytes, region_size, delivered_at, pending_at, entries_at, entry_bytes};
ghost use Rattle.groups.specs.Parse.{group_in};
ghost use Rattle.groups.specs.Step.{pending_of, pending_of_others};
ghost use Rattle.groups.specs.Answer.{SoundRegion};
ghost use Rattle.groups_change.specs.Places.{row_kept, rows_of_others};
ghost use Rattle.groups_change.specs.Change.{with_pending, without_at, row_of};

use groups::{COUNT_AT, DELIVERED_AT, ENTRIES_AT, ENTRY_BYTES, PENDING_AT, PLACE_AT, TIME_AT};
use id::Id;

// The row of an entry at a place.
pub fn write_row(region: &mut [u8], i: usize, id: Id, place: usize, time: u64, count: u64)
    requires { (length region.old ≡ region_size) × (i < most_pending) × (place < 256) }
    ensures { region.new ≡ put region.old (entries_at + i * entry_bytes) (row_of id place time count) }
{
    let at = ENTRIES_AT + i * ENTRY_BYTES;
    id::write_id(region, at, id);
    region[at + PLACE_AT] = place as u8;
    octets::write_le(region, at + TIME_AT, 8, time);
    octets::write_le(region, at + COUNT_AT, 2, count);
}

// The number of entries, and the last delivered ID.
pub fn note_delivered(region: &mut [u8], n: usize, id: Id)
    requires { (length region.old ≡ region_size) × (n ≤ most_pending) }
    ensures { region.new ≡ put (put region.old pending_at (le 2 n)) delivered_at (id_bytes id) }
{
    octets::write_le(region, PENDING_AT, 2, n as u64);
    id::write_id(region, DELIVERED_AT, id);
}

pub fn remove_entry(region: &mut [u8], i: usize)
    requires { SoundRegion region.old × (i < length (group_in region.old).pending) }
    ensures { region.new ≡ region_bytes (with_pending (without_at i (group_in region.old).pending) (group_in region.old)) }
{
    let n = groups::pending_count(region);
    octets::splice(
        region,
        ENTRIES_AT + n * ENTRY_BYTES,
        ENTRIES_AT + i * ENTRY_BYTES,
        ENTRY_BYTES,
        b"",
    );
    octets::write_le(region, PENDING_AT, 2, (n - 1) as u64);
}

// The row at a place goes to another, which is not after it. By words: a loop over 27 bytes takes twice as long.
fn move_row(region: &mut [u8], at: usize, to: usize)
    requires { (at + entry_bytes ≤ length region.old) × (to ≤ at) }
    ensures { region.new ≡ put region.old to (area at entry_bytes region.old) }
{
    let a = octets::read_le(region, at, 8);
    let b = octets::read_le(region, at + 8, 8);
    let c = octets::read_le(region, at + 16, 8);
    let d = octets::read_le(region, at + 24, 3);
    octets::write_le(region, to, 8, a);
    octets::write_le(region, to + 8, 8, b);
    octets::write_le(region, to + 16, 8, c);
    octets::write_le(region, to + 24, 3, d);
}

// The row at a place goes to another, which is not after it, unless it is of the consumer at place k: 1 or 0 rows.
fn keep_row(region: &mut [u8], at: usize, to: usize, k: usize) -> usize
    requires { (at + entry_bytes ≤ length region.old) × (to ≤ at) }
    ensures { (result * entry_bytes ≡ length (row_kept k (drop at region.old))) × (result ≤ 1) × (region.new ≡ put region.old to (row_kept k (drop at region.old))) }
{
    let place = octets::wide(region[at + PLACE_AT]) as usize;
    if place == k {
        return 0;
    }
    move_row(region, at, to);
    1
}

// The rows of n entries that are not of the consumer at place k close up to the front; how many they are.
fn gather_others(region: &mut [u8], n: usize, k: usize) -> usize
    requires { entries_at + n * entry_bytes ≤ length region.old }
    ensures { (result * entry_bytes ≡ length (rows_of_others k n (drop entries_at region.old))) × (result ≤ n) × (region.new ≡ put region.old entries_at (rows_of_others k n (drop entries_at region.old))) }
{
    let mut at = ENTRIES_AT;
    let mut kept = 0;
    for _ in 0..n {
        kept += keep_row(region, at, ENTRIES_AT + kept * ENTRY_BYTES, k);
        at += ENTRY_BYTES;
    }
    kept
}

// All entries of the consumer at a place go, in one pass; how many they were.
pub fn remove_entries(region: &mut [u8], k: usize) -> usize
    requires { SoundRegion region.old × (k < length (group_in region.old).consumers) }
    ensures { (result ≡ length (pending_of (get_or (group_in region.old).consumers k []) (group_in region.old).pending)) × (region.new ≡ region_bytes (with_pending (pending_of_others (get_or (group_in region.old).consumers k []) (group_in region.old).pending) (group_in region.old))) }
{
    let n = groups::pending_count(region);
    let kept = gather_others(region, n, k);
    octets::zero(
        region,
        ENTRIES_AT + kept * ENTRY_BYTES,
        (n - kept) * ENTRY_BYTES,
    );
    octets::write_le(region, PENDING_AT, 2, kept as u64);
    n - kept
}
