// What the benchmark calls of groups: a group in its region and the area of all groups. Each function judges the bytes first, as the
// commands of a store do, and says by a number why it changed nothing.

#![tactic(auto)]

ghost use Rattle.std.specs.Prelude.{◌≡◌, not, is_none};
ghost use Rattle.id.specs.Id.{id_of};
ghost use Rattle.groups.specs.Area.{parse_area};
ghost use Rattle.bench_groups.specs.Answer.{as_number, sound_in, is_short, delivers, acknowledges, claims, drops, creates, destroys};

use id::Id;

fn is_sound(region: &[u8]) -> bool
    ensures { result ≡ sound_in region.now }
{
    if region.len() != groups::REGION_BYTES {
        return false;
    }
    groups::is_region(region, Id::GREATEST)
}

fn is_short(name: &[u8]) -> bool
    ensures { result ≡ is_short name.now }
{
    if name.len() < 1 {
        return false;
    }
    name.len() <= groups::LONGEST_NAME
}

// 1 where the area is that of groups with no pending ID above the last ID, and 0 where it is not.
#[unsafe(no_mangle)]
pub extern "C" fn wallathi_bench_groups_judge(area: &[u8], ms: u64, seq: u64) -> u32
    ensures { result ≡ as_number (not (is_none (parse_area (id_of ms seq) area.now))) }
{
    if group_area::judge(area, Id { ms, seq }) {
        1
    } else {
        0
    }
}

// 0 done; 2 no sound region; 3 no name; 4 not above the last delivered ID; 12, 13.
#[unsafe(no_mangle)]
pub extern "C" fn wallathi_bench_deliver(
    region: &mut [u8],
    consumer: &[u8],
    time: u64,
    ms: u64,
    seq: u64,
) -> u32
    ensures { (result ≡ (delivers consumer.now time (id_of ms seq) region.old).answer) × (region.new ≡ (delivers consumer.now time (id_of ms seq) region.old).bytes) }
{
    if !is_sound(region) {
        return 2;
    }
    if !is_short(consumer) {
        return 3;
    }
    let id = Id { ms, seq };
    let last = groups::delivered(region);
    if !last.is_below(id) {
        return 4;
    }
    match groups_change::deliver(region, consumer, time, id) {
        Ok(()) => 0,
        Err(refusal) => refusal.number(),
    }
}

// 0 or 1 entries went; 2 no sound region.
#[unsafe(no_mangle)]
pub extern "C" fn wallathi_bench_acknowledge(region: &mut [u8], ms: u64, seq: u64) -> u64
    ensures { (result ≡ (acknowledges (id_of ms seq) region.old).answer) × (region.new ≡ (acknowledges (id_of ms seq) region.old).bytes) }
{
    if !is_sound(region) {
        return 2;
    }
    groups_change::acknowledge(region, Id { ms, seq })
}

// 0 moved; 2 no sound region; 3 no name; 12; 34 not moved.
#[unsafe(no_mangle)]
pub extern "C" fn wallathi_bench_claim(
    region: &mut [u8],
    consumer: &[u8],
    least: u64,
    ms: u64,
    seq: u64,
    time: u64,
) -> u32
    ensures { (result ≡ (claims consumer.now least (id_of ms seq) time region.old).answer) × (region.new ≡ (claims consumer.now least (id_of ms seq) time region.old).bytes) }
{
    if !is_sound(region) {
        return 2;
    }
    if !is_short(consumer) {
        return 3;
    }
    match groups_change::claim(region, consumer, least, Id { ms, seq }, time) {
        Ok(true) => 0,
        Ok(false) => 34,
        Err(refusal) => refusal.number(),
    }
}

// 1 and the number of entries that went; 0 no sound region.
#[unsafe(no_mangle)]
pub extern "C" fn wallathi_bench_drop(region: &mut [u8], consumer: &[u8]) -> u64
    ensures { (result ≡ (drops consumer.now region.old).answer) × (region.new ≡ (drops consumer.now region.old).bytes) }
{
    if !is_sound(region) {
        return 0;
    }
    let n = groups_change::drop_consumer(region, consumer);
    1 + n
}

// 0 done; 2 no sound area; 3 no name; 10, 11.
#[unsafe(no_mangle)]
pub extern "C" fn wallathi_bench_create(area: &mut [u8], name: &[u8], ms: u64, seq: u64) -> u32
    ensures { (result ≡ (creates name.now (id_of ms seq) area.old).answer) × (area.new ≡ (creates name.now (id_of ms seq) area.old).bytes) }
{
    if !group_area::judge(area, Id::GREATEST) {
        return 2;
    }
    if !is_short(name) {
        return 3;
    }
    match group_area::create(area, name, Id { ms, seq }) {
        Ok(()) => 0,
        Err(refusal) => refusal.number(),
    }
}

// 0 done; 2 no sound area; 9.
#[unsafe(no_mangle)]
pub extern "C" fn wallathi_bench_destroy(area: &mut [u8], name: &[u8]) -> u32
    ensures { (result ≡ (destroys name.now area.old).answer) × (area.new ≡ (destroys name.now area.old).bytes) }
{
    if !group_area::judge(area, Id::GREATEST) {
        return 2;
    }
    match group_area::destroy(area, name) {
        Ok(()) => 0,
        Err(refusal) => refusal.number(),
    }
}
