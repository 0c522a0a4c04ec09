// What the card and the events do to a station, and the lines that are printed of it.
ghost use Rattle.std.specs.Prelude.{◌≡◌, true, ◌*◌, ◌≤◌, ◌<◌, [], length, IfErr};
ghost use Rattle.cards.specs.Answers.{reported};
ghost use Rattle.chain.specs.Answers.{reported_frame, reported_number};
ghost use Rattle.cards.specs.Card.{open_of, opened, station_of};
ghost use Rattle.events.specs.Events.{card_in, Whole, event_fault as faultOf};
ghost use Rattle.events.specs.Play.{spoken, pictured, refusal_line as refusedLine, show_played, frame_played, called as calledOf, played_of};
ghost use Rattle.events.specs.Buffers.{Printed};
ghost use Rattle.events.specs.Promises.{Lent, Room, Begins, Gives, went_on};
ghost use Rattle.events.specs.Text.{L};
ghost use Rattle.num.specs.Refusals.{number_of};

use super::event::{event_fault, head_wanted};
use super::text::{frame_line, letter_line, number_line};
use cards::reader;
use cards::station::Station;
use chain::pipeline;
use chain::refusals::stops;
use num::refusal::Refusal;
use passes::blur::Counts;
use raster::pixels::{at, unpack};

#[derive(Clone, Copy, Debug, PartialEq, Eq)]
pub struct Played {
    // How many bytes the line has, at the start of the buffer that was lent for it.
    pub length: usize,
    // Whether the next event is read.
    pub more: bool,
}

// A card that is refused: the empty chain, which stands until the next card, and how many bytes its line has.
#[derive(Clone, Copy)]
pub struct NotOpened {
    pub station: Station,
    pub length: usize,
}

// What is lent to each frame: its words, those of older frames, and scratch.
#[derive(Drop)]
pub struct Workspace {
    pub framebuffer: [u32; 1024],
    pub history: [u32; 8192],
    pub floats: [f32; 6144],
    pub ints: [u32; 1024],
}

// The line of a refusal.
fn refusal_line(refusal: Refusal, out: &mut [u8]) -> usize
    requires { 6 ≤ length out.old }
    ensures { Printed (refusedLine (number_of refusal)) result out.old out.new }
{
    number_line(out, b'E', refusal.number())
}

// The line of a reset or a switch.
#[tactic(auto, unfolding(crate::specs::Text::numbers_of))]
fn answer_line(answer: Result<(), Refusal>, letter: u8, out: &mut [u8]) -> usize
    requires { 6 ≤ length out.old }
    ensures { Printed (spoken letter (reported answer)) result out.old out.new }
{
    match answer {
        Ok(()) => letter_line(out, letter),
        Err(refusal) => refusal_line(refusal, out),
    }
}

// The line of a preset step.
#[tactic(auto, unfolding(crate::specs::Text::numbers_of))]
fn step_line(answer: Result<u8, Refusal>, out: &mut [u8]) -> usize
    requires { 6 ≤ length out.old }
    ensures { Printed (spoken L (reported_number answer)) result out.old out.new }
{
    match answer {
        Ok(preset) => number_line(out, b'L', preset),
        Err(refusal) => refusal_line(refusal, out),
    }
}

// The line of a frame. What it reports is not printed: document 01's lines have no place for it.
fn picture_line(answer: Result<Counts, Refusal>, frame: &[u32], out: &mut [u8]) -> usize
    requires { (length frame.now ≤ 1024) × (7170 ≤ length out.old) }
    ensures { Printed (pictured (reported_frame answer) frame.now) result out.old out.new }
{
    match answer {
        Ok(_) => frame_line(out, frame),
        Err(refusal) => refusal_line(refusal, out),
    }
}

// A frame, whose words are all that is lent of the framebuffer. They are written once the station takes it. No curve is lent.
fn show(
    station: &mut Station,
    pixels: &[u8],
    width: usize,
    height: usize,
    words: &mut [u32],
    history: &mut [u32],
    floats: &mut [f32],
    ints: &mut [u32],
    out: &mut [u8],
) -> usize
    requires { Room (height * width) words.old pixels.now floats.old ints.old out.old }
    ensures { Gives (show_played width height station.old pixels.now words.old history.old)
        (went_on result) station.new words.new history.new floats.old floats.new
        ints.old ints.new out.old out.new }
{
    let curve: [f32; 0] = [];
    let asked = stops(
        station,
        width,
        height,
        words.len(),
        history.len(),
        floats.len(),
        ints.len(),
        &curve,
    );
    if let Err(refusal) = asked {
        return refusal_line(refusal, out);
    }
    unpack(words, pixels);
    let answer = pipeline::apply(station, words, width, height, history, floats, ints, &curve);
    picture_line(answer, words, out)
}

// A frame without fault, in the first words of the framebuffer. The buffers come one by one: a part of a `Workspace`'s field can not be lent beside the others.
fn frame(
    station: &mut Station,
    bytes: &[u8],
    framebuffer: &mut [u32],
    history: &mut [u32],
    floats: &mut [f32],
    ints: &mut [u32],
    out: &mut [u8],
) -> usize
    requires whole { Whole bytes.now }
    requires lent { Lent framebuffer.old floats.old ints.old out.old }
    ensures { Gives (frame_played bytes.now station.old framebuffer.old history.old)
        (went_on result) station.new framebuffer.new history.new floats.old floats.new
        ints.old ints.new out.old out.new }
{
    let width = at(bytes, 1);
    let height = at(bytes, 2);
    let count = height * width;
    show(
        station,
        &bytes[3..],
        width,
        height,
        &mut framebuffer[..count],
        history,
        floats,
        ints,
        out,
    )
}

// An event without fault, by its letter.
fn call(station: &mut Station, bytes: &[u8], work: &mut Workspace, out: &mut [u8; 7170]) -> usize
    requires some { 0 < length bytes.now }
    requires fine { faultOf bytes.now ≡ 0 }
    ensures { Gives (calledOf bytes.now station.old work.old.framebuffer work.old.history)
        (went_on result) station.new work.new.framebuffer work.new.history work.old.floats work.new.floats
        work.old.ints work.new.ints out.old out.new }
{
    match bytes[0] {
        b'F' => frame(
            station,
            bytes,
            &mut work.framebuffer,
            &mut work.history,
            &mut work.floats,
            &mut work.ints,
            out,
        ),
        b'R' => answer_line(pipeline::reset(station), b'R', out),
        b'S' => answer_line(
            pipeline::set_enabled(station, bytes[1], bytes[2] == 1),
            b'S',
            out,
        ),
        _ => step_line(pipeline::cycle_lut(station), out),
    }
}

// The card of an input that begins with these bytes, which are all that it had of the card. An empty card is torn.
#[tactic(auto, unfolding(crate::specs::Events::card_in), using(crate::proofs::Sizes::some_wanted))]
fn open(bytes: &[u8]) -> Result<Station, Refusal>
    ensures { opened result ≡ open_of (card_in bytes.now) }
{
    let end = head_wanted(bytes);
    if bytes.len() < end {
        return reader::open(&[]);
    }
    reader::open(&bytes[1..end])
}

// Opens the card. A refused one prints its line, and ends the reading.
#[tactic(auto, using(crate::specs::Laws::Buffers::fits))]
pub fn begin(bytes: &[u8], out: &mut [u8; 7170]) -> Result<Station, NotOpened>
    ensures short { IfErr result (λ k. k.length ≤ 7170) }
    ensures empty { IfErr result (λ k. k.station ≡ station_of []) }
    ensures line { Begins (open_of (card_in bytes.now)) result out.old out.new }
{
    // not `map_err`: of a closure that writes the line its promise would not be known
    match open(bytes) {
        Ok(station) => Ok(station),
        Err(refusal) => Err(NotOpened {
            station: Station::empty(),
            length: refusal_line(refusal, out),
        }),
    }
}

// Plays the event at the start of these bytes, which are all that the input had of it.
#[tactic(auto, using(crate::specs::Laws::Buffers::fits))]
pub fn play(
    station: &mut Station,
    bytes: &[u8],
    work: &mut Workspace,
    out: &mut [u8; 7170],
) -> Played
    ensures short { result.length ≤ 7170 }
    ensures outcome { Gives (played_of bytes.now station.old work.old.framebuffer work.old.history)
        result station.new work.new.framebuffer work.new.history work.old.floats work.new.floats
        work.old.ints work.new.ints out.old out.new }
{
    if bytes.is_empty() {
        return Played {
            length: 0,
            more: false,
        };
    }
    if let Err(refusal) = event_fault(bytes) {
        let length = refusal_line(refusal, out);
        return Played {
            length,
            more: false,
        };
    }
    let length = call(station, bytes, work, out);
    Played { length, more: true }
}
