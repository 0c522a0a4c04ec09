// What a sheet does to a station, event by event, with the buffers of a frame lent for all of them.
ghost use Rattle.std.specs.Prelude.{◌≡◌, true, ◌≤◌, ◌<◌, ◌*◌};
ghost use Rattle.chain.specs.Agree.{opened};
ghost use Rattle.sheets.specs.Events.{rest_at, frame as framed};
ghost use Rattle.sheets.specs.Play.{begun, played_of, play_of};
ghost use Rattle.sheets.specs.Promises.{Within, Turns, Plays, told, values_at, is_taken, lent_of};
ghost use Rattle.sheets.specs.declared.event.Event.TheVariants.{Frame};

use super::event::{Event, is_whole, read};
use super::pixels::unpack;
use cards::fields::Cursor;
use cards::station::Station;
use chain::pipeline;
use chain::refusals::stops;
use num::refusal::Refusal;

// How many events were accepted, and how many refused.
#[derive(Clone, Copy, Debug, PartialEq, Eq)]
pub struct Played {
    pub accepted: u32,
    pub refused: u32,
}

// A frame whose words stand from the bit `at` on. They are written once the station takes it.
fn show(
    station: &mut Station,
    sheet: &[u8],
    at: usize,
    width: usize,
    height: usize,
    framebuffer: &mut [u32],
    history: &mut [u32],
    floats: &mut [f32],
    ints: &mut [u32],
    curve: &[f32],
) -> Result<(), Refusal>
    requires { Within sheet.now (Frame width height at) }
    ensures { Turns (lent_of history.old floats.old ints.old curve.now)
        (framed width height (values_at (height * width) sheet.now at)) (begun (opened station.old history.old) framebuffer.old)
        result station.new framebuffer.new history.new floats.old floats.new ints.old ints.new }
{
    stops(
        station,
        width,
        height,
        framebuffer.len(),
        history.len(),
        floats.len(),
        ints.len(),
        curve,
    )?;
    let count = height * width;
    unpack(&mut framebuffer[..count], sheet, at);
    pipeline::apply(
        station,
        framebuffer,
        width,
        height,
        history,
        floats,
        ints,
        curve,
    )?;
    Ok(())
}

// One event, as the call that it is. What the call reports is not told.
pub fn make(
    station: &mut Station,
    sheet: &[u8],
    event: Event,
    framebuffer: &mut [u32],
    history: &mut [u32],
    floats: &mut [f32],
    ints: &mut [u32],
    curve: &[f32],
) -> Result<(), Refusal>
    requires { Within sheet.now event }
    ensures { Turns (lent_of history.old floats.old ints.old curve.now)
        (told sheet.now event) (begun (opened station.old history.old) framebuffer.old)
        result station.new framebuffer.new history.new floats.old floats.new ints.old ints.new }
{
    match event {
        Event::Frame { width, height, at } => show(
            station,
            sheet,
            at,
            width,
            height,
            framebuffer,
            history,
            floats,
            ints,
            curve,
        ),
        Event::Reset => pipeline::reset(station),
        Event::Switch { kind, on } => pipeline::set_enabled(station, kind, on),
        Event::Step => {
            pipeline::cycle_lut(station)?;
            Ok(())
        }
        Event::Ask { kind, on } => pipeline::ask(station, kind, on),
        Event::Commit => pipeline::commit(station),
    }
}

// Plays n events, which all stand behind the cursor.
fn play_all(
    station: &mut Station,
    sheet: &mut Cursor,
    n: u32,
    framebuffer: &mut [u32],
    history: &mut [u32],
    floats: &mut [f32],
    ints: &mut [u32],
    curve: &[f32],
) -> Played
    requires { (n < 65536) × (sheet.old.at ≤ 16) × (is_taken (rest_at n sheet.old.bytes.now sheet.old.at) ≡ true) }
    ensures { Plays (played_of (lent_of history.old floats.old ints.old curve.now)
        (rest_at n sheet.old.bytes.now sheet.old.at) (begun (opened station.old history.old) framebuffer.old))
        (Ok result) station.new framebuffer.new history.new floats.old floats.new ints.old ints.new }
{
    let bytes = sheet.bytes;
    let mut accepted = 0;
    for _ in 0..n {
        let event = read(sheet).unwrap();
        let made = make(
            station,
            bytes,
            event,
            framebuffer,
            history,
            floats,
            ints,
            curve,
        );
        accepted += made.is_ok() as u32;
    }
    Played {
        accepted,
        refused: n - accepted,
    }
}

// Plays a sheet: each event as the call that it is, accepted or refused. A bad station, or a sheet that is not whole, is refused, and nothing changes.
pub fn play(
    station: &mut Station,
    sheet: &[u8],
    framebuffer: &mut [u32],
    history: &mut [u32],
    floats: &mut [f32],
    ints: &mut [u32],
    curve: &[f32],
) -> Result<Played, Refusal>
    ensures { Plays (play_of (lent_of history.old floats.old ints.old curve.now)
        sheet.now (opened station.old history.old) framebuffer.old)
        result station.new framebuffer.new history.new floats.old floats.new ints.old ints.new }
{
    if !station.is_good() {
        return Err(Refusal::BadStation);
    }
    if !is_whole(sheet) {
        return Err(Refusal::BadSheet);
    }
    let mut cursor = Cursor {
        bytes: sheet,
        at: 0,
    };
    let n = cursor.field(16).unwrap();
    Ok(play_all(
        station,
        &mut cursor,
        n,
        framebuffer,
        history,
        floats,
        ints,
        curve,
    ))
}
