// The changes of a group that commands make.

ghost use Rattle.std.specs.Prelude.{◌≡◌, true, false, ◌+◌, ◌*◌, ◌≤◌, length};
ghost use Rattle.std.specs.Result.{result_err};
ghost use Rattle.octets.specs.Pick.{pick};
ghost use Rattle.id.specs.Id.{below};
ghost use Rattle.groups.specs.Group.{longest_name, most_pending};
ghost use Rattle.groups.specs.Bytes.{region_bytes};
ghost use Rattle.groups.specs.Parse.{group_in};
ghost use Rattle.groups.specs.Step as step;
ghost use Rattle.groups.specs.Step.{lacks_consumer};
ghost use Rattle.groups.specs.Answer.{SoundRegion, ids_above};
ghost use Rattle.groups_change.specs.Change.{refusal_to_deliver, ids_in, unless_refused, found_count, refusal_to_claim, claim_moves, claimed_as};
ghost use Rattle.groups_change.specs.Moved.{is_moved};

use crate::consumers::{lacks_consumer, make_consumer, remove_consumer};
use crate::entries::{note_delivered, remove_entries, remove_entry, write_row};
use crate::pieces::{grown, idle_for};
use groups::MOST_PENDING;
use id::Id;
use refusal::Refusal;

// 12, a consumer would be made and 16 exist; 13, 256 pending.
pub fn check_delivery(region: &[u8], consumer: &[u8]) -> Result<(), Refusal>
    requires { SoundRegion region.now }
    ensures { result_err result ≡ refusal_to_deliver consumer.now (group_in region.now) }
{
    if lacks_consumer(region, consumer) {
        return Err(Refusal::MostConsumers);
    }
    let n = groups::pending_count(region);
    if MOST_PENDING <= n {
        return Err(Refusal::MostPending);
    }
    Ok(())
}

// The ID, above the last delivered one, becomes last delivered and pending for the consumer.
pub fn deliver(region: &mut [u8], consumer: &[u8], time: u64, id: Id) -> Result<(), Refusal>
    requires { SoundRegion region.old × (1 ≤ length consumer.now) × (length consumer.now ≤ longest_name) × (below (group_in region.old).delivered id ≡ true) }
    ensures { (result_err result ≡ refusal_to_deliver consumer.now (group_in region.old)) × (region.new ≡ unless_refused (result_err result) region.old (region_bytes (step.deliver consumer.now time id (group_in region.old)))) }
{
    check_delivery(region, consumer)?;
    let n = groups::pending_count(region);
    let place = make_consumer(region, consumer);
    write_row(region, n, id, place, time, 1);
    note_delivered(region, n + 1, id);
    Ok(())
}

// k IDs of 16 bytes, rising above the last delivered, become pending for the consumer one after the other.
pub fn deliver_all(region: &mut [u8], consumer: &[u8], time: u64, ids: &[u8], k: usize)
    requires { SoundRegion region.old × (1 ≤ length consumer.now) × (length consumer.now ≤ longest_name) × (lacks_consumer consumer.now (group_in region.old) ≡ false) × (length (group_in region.old).pending + k ≤ most_pending) × (16 * k ≤ length ids.now) × (ids_above (group_in region.old).delivered (ids_in k ids.now) ≡ true) }
    ensures { region.new ≡ region_bytes (step.deliver_all consumer.now time (ids_in k ids.now) (group_in region.old)) }
{
    if k == 0 {
        return;
    }
    let n = groups::pending_count(region);
    let place = make_consumer(region, consumer);
    for j in 0..k {
        write_row(region, n + j, id::read_id(ids, 16 * j), place, time, 1);
    }
    note_delivered(region, n + k, id::read_id(ids, 16 * (k - 1)));
}

// The entry of an ID is taken out: 1, or 0 if it is not pending.
pub fn acknowledge(region: &mut [u8], id: Id) -> u64
    requires { SoundRegion region.old }
    ensures { (result ≡ found_count (step.find_pending id (group_in region.old).pending)) × (region.new ≡ region_bytes (step.acknowledge id (group_in region.old))) }
{
    let Some(entry) = groups::find_pending(region, id) else {
        return 0;
    };
    remove_entry(region, entry.place);
    1
}

// An entry that is idle for long enough moves to the consumer: did it move?
pub fn claim(
    region: &mut [u8],
    consumer: &[u8],
    least_idle: u64,
    id: Id,
    time: u64,
) -> Result<bool, Refusal>
    requires { SoundRegion region.old × (1 ≤ length consumer.now) × (length consumer.now ≤ longest_name) }
    ensures { (result_err result ≡ refusal_to_claim consumer.now least_idle id time (group_in region.old)) × (is_moved result ≡ claim_moves consumer.now least_idle id time (group_in region.old)) × (region.new ≡ pick (is_moved result) (region_bytes (claimed_as consumer.now time (group_in region.old) (step.find_pending id (group_in region.old).pending))) region.old) }
{
    let Some(entry) = groups::find_pending(region, id) else {
        return Ok(false);
    };
    if idle_for(time, entry.time) < least_idle {
        return Ok(false);
    }
    if lacks_consumer(region, consumer) {
        return Err(Refusal::MostConsumers);
    }
    let place = make_consumer(region, consumer);
    write_row(region, entry.place, id, place, time, grown(entry.count));
    Ok(true)
}

// The consumer goes, and its entries; how many these were, 0 if it is unknown.
pub fn drop_consumer(region: &mut [u8], consumer: &[u8]) -> u64
    requires { SoundRegion region.old }
    ensures { (result ≡ length (step.pending_of consumer.now (group_in region.old).pending)) × (region.new ≡ region_bytes (step.drop_consumer consumer.now (group_in region.old))) }
{
    let Some(k) = groups::find_consumer(region, consumer) else {
        return 0;
    };
    let gone = remove_entries(region, k);
    remove_consumer(region, k);
    gone as u64
}
