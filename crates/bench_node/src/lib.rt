// What the benchmark calls of a node in its slot. Each function judges the slot first, as the commands of a store do.

#![tactic(auto)]

ghost use Rattle.std.specs.Prelude.{◌≡◌, length};
ghost use Rattle.id.specs.Id.{id_of};
ghost use Rattle.bench_node.specs.Answer.{as_number};
ghost use Rattle.bench_node.specs.Node.{live_of, is_sound, finds, appends, appended, deletes, deleted, read_length, read_output, field_length, field_output};

use id::Id;

fn is_sound(slot: &[u8], key: Id) -> bool
    ensures { result ≡ is_sound key slot.now }
{
    node::judge(slot, key, Id::LEAST, Id::GREATEST).is_some()
}

// How many messages are live; 0 in a slot that is not in order.
fn live_of(slot: &[u8], key: Id) -> usize
    ensures { result ≡ live_of key slot.now }
{
    match node::judge(slot, key, Id::LEAST, Id::GREATEST) {
        Some(j) => j.live,
        None => 0,
    }
}

// 1 where the slot holds a node with this key, and 0 where it does not.
#[unsafe(no_mangle)]
pub extern "C" fn wallathi_bench_judge(slot: &[u8], ms: u64, seq: u64) -> u32
    ensures { result ≡ as_number (is_sound (id_of ms seq) slot.now) }
{
    u32::from(is_sound(slot, Id { ms, seq }))
}

// 1 where the message is live in the slot.
#[unsafe(no_mangle)]
pub extern "C" fn wallathi_bench_find(
    slot: &[u8],
    key_ms: u64,
    key_seq: u64,
    ms: u64,
    seq: u64,
) -> u32
    ensures { result ≡ as_number (finds (id_of key_ms key_seq) (id_of ms seq) slot.now) }
{
    let key = Id {
        ms: key_ms,
        seq: key_seq,
    };
    if !is_sound(slot, key) {
        return 0;
    }
    u32::from(node_read::find_live(slot, key, Id { ms, seq }))
}

// 1 where the message of the slip was appended; otherwise nothing is changed.
#[unsafe(no_mangle)]
pub extern "C" fn wallathi_bench_append(
    slot: &mut [u8],
    key_ms: u64,
    key_seq: u64,
    ms: u64,
    seq: u64,
    slip: &[u8],
) -> u32
    ensures { (result ≡ as_number (appends (id_of key_ms key_seq) (id_of ms seq) slot.old slip.now)) × (slot.new ≡ appended (id_of key_ms key_seq) (id_of ms seq) slot.old slip.now) }
{
    let key = Id {
        ms: key_ms,
        seq: key_seq,
    };
    let id = Id { ms, seq };
    if !is_sound(slot, key) {
        return 0;
    }
    if !slip::check_slip(slip) {
        return 0;
    }
    if !node_write::takes(slot, key, id, slip) {
        return 0;
    }
    node_write::append(slot, key, id, slip);
    1
}

// 1 where the message was live, and is deleted; the last live one is not, since its node would be freed.
#[unsafe(no_mangle)]
pub extern "C" fn wallathi_bench_delete(
    slot: &mut [u8],
    key_ms: u64,
    key_seq: u64,
    ms: u64,
    seq: u64,
) -> u32
    ensures { (result ≡ as_number (deletes (id_of key_ms key_seq) (id_of ms seq) slot.old)) × (slot.new ≡ deleted (id_of key_ms key_seq) (id_of ms seq) slot.old) }
{
    let key = Id {
        ms: key_ms,
        seq: key_seq,
    };
    if live_of(slot, key) < 2 {
        return 0;
    }
    u32::from(node_delete::delete(slot, key, Id { ms, seq }))
}

// The length of the message's slip, which starts the output then; 0 where it is not live or does not fit.
#[unsafe(no_mangle)]
pub extern "C" fn wallathi_bench_read(
    slot: &[u8],
    key_ms: u64,
    key_seq: u64,
    ms: u64,
    seq: u64,
    out: &mut [u8],
) -> u64
    ensures { (result ≡ read_length (id_of key_ms key_seq) (id_of ms seq) slot.now (length out.old)) × (out.new ≡ read_output (id_of key_ms key_seq) (id_of ms seq) slot.now out.old) }
{
    let key = Id {
        ms: key_ms,
        seq: key_seq,
    };
    if !is_sound(slot, key) {
        return 0;
    }
    match node_read::read_message(slot, key, Id { ms, seq }, out) {
        Ok(n) => n as u64,
        Err(_) => 0,
    }
}

// The length of a field's value, which starts the output then; 0 where the message is not live, lacks the field or does not fit.
#[unsafe(no_mangle)]
pub extern "C" fn wallathi_bench_field(
    slot: &[u8],
    key_ms: u64,
    key_seq: u64,
    ms: u64,
    seq: u64,
    name: &[u8],
    out: &mut [u8],
) -> u64
    ensures { (result ≡ field_length (id_of key_ms key_seq) (id_of ms seq) name.now slot.now (length out.old)) × (out.new ≡ field_output (id_of key_ms key_seq) (id_of ms seq) name.now slot.now out.old) }
{
    let key = Id {
        ms: key_ms,
        seq: key_seq,
    };
    if !is_sound(slot, key) {
        return 0;
    }
    let Some(q) = node_read::find_pairs(slot, key, Id { ms, seq }) else {
        return 0;
    };
    let Some(v) = node_read::find_field(slot, q, name) else {
        return 0;
    };
    if out.len() < v.len {
        return 0;
    }
    node_read::write_value(slot, v.at, out);
    v.len as u64
}
