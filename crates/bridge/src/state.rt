// The station in the 134 bytes that a host lends: written, and read back where they are a state.
ghost use Rattle.std.specs.Prelude.{◌≡◌, ◌*◌, ◌+◌, ◌≤◌, min, length};
ghost use Rattle.bridge.specs.State.{held_bytes, sizes_bytes, kind_byte, position_byte, encoded, held_in, hold_on, pending_of, same_bytes, decoded};

use cards::reader::open;
use cards::station::{Pending, Record, Station};
use cards::writer::write;
use num::refusal::Refusal;
use num::size::Size;

// A side, from its two bytes.
fn side(high: u8, low: u8) -> u16
    ensures { result ≡ high * 256 + low }
{
    high as u16 * 256 + low as u16
}

// What a record holds, from the four bytes at that place.
fn held_in(state: &[u8; 134], at: usize) -> Size
    requires { at + 4 ≤ 134 }
    ensures { result ≡ held_in at state.now }
{
    let width = side(state[at], state[at + 1]);
    let height = side(state[at + 2], state[at + 3]);
    Size { width, height }
}

// The records of an opened card's station: each of its chain with what it holds, and those past n as they are, whatever the bytes say.
fn hold_in(station: &Station, state: &[u8; 134]) -> [Record; 12]
    ensures { result ≡ (hold_on state.now station.now).records }
{
    let mut records = station.records;
    let n = station.chain().len();
    for i in 0..n {
        records[i].held = held_in(state, 84 + 4 * i);
    }
    records
}

// The four bytes of what a record holds.
fn put_size(held: Size, part: &mut [u8])
    requires { length part.old ≡ 4 }
    ensures { part.new ≡ held_bytes held }
{
    part[0] = (held.width / 256) as u8;
    part[1] = (held.width % 256) as u8;
    part[2] = (held.height / 256) as u8;
    part[3] = (held.height % 256) as u8;
}

// What each of the twelve records holds, one after the other.
fn put_sizes(records: &[Record; 12], part: &mut [u8])
    requires { length part.old ≡ 48 }
    ensures bytes { part.new ≡ sizes_bytes records.now }
    ensures twelve { length records.now ≡ 12 }
{
    for i in 0..12 {
        let at = 4 * i;
        put_size(records[i].held, &mut part[at..at + 4]);
    }
}

// The kind of the switch that is asked for, 0 for none.
fn kind_byte(pending: Pending) -> u8
    ensures { result ≡ kind_byte pending }
{
    match pending {
        Pending::Nothing => 0,
        Pending::Switch { kind, .. } => kind,
    }
}

// Its position: on is 1, off is 0, as none is.
fn position_byte(pending: Pending) -> u8
    ensures { result ≡ position_byte pending }
{
    match pending {
        Pending::Switch { on: true, .. } => 1,
        _ => 0,
    }
}

// The switch that is asked for, from its two bytes.
fn pending_of(kind: u8, position: u8) -> Pending
    ensures { result ≡ pending_of kind position }
{
    if kind == 0 {
        return Pending::Nothing;
    }
    Pending::Switch {
        kind,
        on: position == 1,
    }
}

// The bytes of a station; zeros where its card is not written.
pub(crate) fn encode(station: &Station) -> [u8; 134]
    ensures { result ≡ encoded station.now }
{
    let mut state = [0u8; 134];
    let Ok(n) = write(station, &mut state[1..84]) else {
        return state;
    };
    put_sizes(&station.records, &mut state[84..132]);
    state[0] = n as u8;
    state[132] = kind_byte(station.pending);
    state[133] = position_byte(station.pending);
    state
}

fn same(xs: &[u8; 134], ys: &[u8; 134]) -> bool
    ensures { result ≡ same_bytes xs.now ys.now }
{
    for i in 0..134 {
        if xs[i] != ys[i] {
            return false;
        }
    }
    true
}

// Where the card in the bytes ends: no more than they are, whatever the length byte says.
fn card_end(length: u8) -> usize
    ensures { result ≡ 1 + min length 133 }
{
    if length < 133 {
        return 1 + length as usize;
    }
    134
}

// The station in the bytes, or refusal 13.
pub(crate) fn decode(state: &[u8; 134]) -> Result<Station, Refusal>
    ensures { result ≡ decoded state.now }
{
    let end = card_end(state[0]);
    let Ok(inside) = open(&state[1..end]) else {
        return Err(Refusal::BadStation);
    };
    let station = Station {
        records: hold_in(&inside, state),
        n: inside.n,
        pending: pending_of(state[132], state[133]),
    };
    if !same(&encode(&station), state) {
        return Err(Refusal::BadStation);
    }
    Ok(station)
}
