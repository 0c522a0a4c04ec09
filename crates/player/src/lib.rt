// Reads cards and events of program `station` from standard input, piece by piece, and plays them. How many bytes each takes,
// what it does and what is printed of it is said by crate `events`.
#![tactic(auto)]

ghost use Rattle.std.specs.Prelude.{◌≡◌, ◌+◌, ◌≤◌, [], cond, length, take, replicate, IfErr};
ghost use Rattle.cards.specs.Card.{station_of};
ghost use Rattle.events.specs.Events.{head_wanted, event_wanted};

use cards::station::Station;
use events::play::{NotOpened, Played, Workspace};
use events::{event, play};

// Standard input by its number, which the functions of `io` take.
pub const STDIN_FILENO: i32 = 0;

// All that a run lends: the bytes that were read, what a frame is lent, and the printed line.
#[derive(Drop)]
pub struct Player {
    input: [u8; 4096],
    work: Workspace,
    out: [u8; 7170],
}

// How many bytes the card, or an event, takes that begins with these. A flag and not a closure, of which no clause would say that the
// card is read as a card (must-fail/card_as_event).
fn wanted(bytes: &[u8], is_card: bool) -> usize
    ensures { (result ≡ cond is_card (head_wanted bytes.now) (event_wanted bytes.now)) × (result ≤ 3075) }
{
    if is_card {
        event::head_wanted(bytes)
    } else {
        event::event_wanted(bytes)
    }
}

// Reads the bytes of the card or of an event, as far as the input has them, and answers how many there are.
fn fetch(input: &mut [u8], is_card: bool) -> usize
    requires { 4096 ≤ length input.old }
    ensures { result ≤ 3075 }
{
    let mut n = 0;
    let mut end = wanted(&input[..n], is_card);
    while n < end {
        let got = io::read_full(STDIN_FILENO, &mut input[n..end]);
        if got == 0 {
            return n;
        }
        n += got;
        end = wanted(&input[..n], is_card);
    }
    n
}

impl Player {
    // A run begins as `events` says that it does: with a framebuffer and a history of zeros.
    pub fn new() -> Player
        ensures { (result.work.framebuffer ≡ replicate 1024 0) × (result.work.history ≡ replicate 8192 0) }
    {
        Player {
            input: io::buffer(),
            work: Workspace {
                framebuffer: [0; 1024],
                history: [0; 8192],
                floats: [0.0; 6144],
                ints: [0; 1024],
            },
            out: [0; 7170],
        }
    }

    // Reads the card and opens it. A refused one leaves the empty chain, and its line.
    pub fn begin(&mut self) -> Result<Station, NotOpened>
        ensures short { IfErr result (λ k. k.length ≤ 7170) }
        ensures empty { IfErr result (λ k. k.station ≡ station_of []) }
    {
        let n = fetch(&mut self.input, true);
        play::begin(&self.input[..n], &mut self.out)
    }

    // Reads one event and plays it.
    pub fn turn(&mut self, station: &mut Station) -> Played
        ensures { result.length ≤ 7170 }
    {
        let n = fetch(&mut self.input, false);
        play::play(station, &self.input[..n], &mut self.work, &mut self.out)
    }

    // The line that was printed last, of that length.
    pub fn line(&self, length: usize) -> &[u8]
        requires { length ≤ 7170 }
        ensures { result.now ≡ take length self.now.out }
    {
        &self.out[..length]
    }
}
