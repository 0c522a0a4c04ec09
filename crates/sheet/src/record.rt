// A file that program `station` takes, of which the events are written as a sheet on standard output. Where an event has no place on a sheet it is said
// which and why, and nothing is written.
use crate::{files, memory, pack, says};
use cards::reader;
use cli::output::{end, told};
use events::event::head_wanted;

// The events, behind the card of the file that argument i named.
fn written(rt: HostRuntime, i: usize, events: &[u8]) {
    let mut sheet = memory::bytes();
    let packed = pack::all(events, &mut sheet);
    if packed.fault != 0 {
        says::event(rt, i, packed.events, packed.fault);
        return;
    }
    let n = packed.length;
    told(end(rt, &sheet[..n]));
}

// The file's bytes. Its card is looked at, since the program reads no event behind one that is refused.
fn behind_card(rt: HostRuntime, i: usize, file: &[u8]) {
    let end = head_wanted(file);
    if file.len() < end {
        says::no_card(rt, i);
        return;
    }
    match reader::open(&file[1..end]) {
        Ok(_) => written(rt, i, &file[end..]),
        Err(k) => says::card_in(rt, i, &file[1..end], k.number()),
    }
}

// The file that argument i names.
pub fn record(rt: HostRuntime, i: usize, file: &mut [u8]) {
    let loaded = files::load(rt, i, file);
    if !loaded.ok {
        return;
    }
    let n = loaded.length;
    behind_card(rt, i, &file[..n]);
}
