// Replays answers of the original that were recorded: each is an event of program `station` with the checksum of the line that the original's pipeline gave.
// Standard input: `N`, a length byte and a card begin a station, `P` and an event play one on it; four bytes follow, the Adler-32 checksum of the answer, most
// significant first. Prints how many answers were replayed, and how many differ.
#![tactic(auto)]

ghost use Rattle.std.specs.Prelude.{◌≤◌};

mod adler; // the checksum

use adler::adler;
use cards::station::Station;
use player::{Player, STDIN_FILENO};

// Standard output by its number, which the functions of `io` take.
const STDOUT_FILENO: i32 = 1;

// The next letter: none at the end of the input, or where a byte 0 stands.
fn next() -> Option<u8> {
    let mut one = [0u8; 1];
    io::read_full(STDIN_FILENO, &mut one);
    match one[0] {
        0 => None,
        letter => Some(letter),
    }
}

// The next four bytes as one number.
fn number() -> u32 {
    let mut four = [0u8; 4];
    io::read_full(STDIN_FILENO, &mut four);
    u32::from_be_bytes(four)
}

// How many answers were replayed, and how many of them differ from the recorded ones, as far as a number goes.
#[derive(Clone, Copy, Debug, Default, PartialEq, Eq)]
struct Tally {
    answers: u64,
    different: u64,
}

impl Tally {
    // Adds an answer, whose checksum is recorded next.
    fn add(&mut self, answer: &[u8]) {
        self.answers = self.answers.saturating_add(1);
        if adler(answer) != number() {
            self.different = self.different.saturating_add(1);
        }
    }

    fn report(&self) {
        io::print_decimal(STDOUT_FILENO, self.answers);
        io::write_all(STDOUT_FILENO, b" answers replayed, ");
        io::print_decimal(STDOUT_FILENO, self.different);
        io::write_all(STDOUT_FILENO, b" different\n");
    }
}

// Begins a station where the letter is `N`, and else plays an event. Answers the length of the line.
fn turn(player: &mut Player, letter: u8, station: &mut Station) -> usize
    ensures { result ≤ 7170 }
{
    if letter != b'N' {
        return player.turn(station).length;
    }
    let (begun, length) = match player.begin() {
        Ok(begun) => (begun, 0),
        Err(refused) => (refused.station, refused.length),
    };
    *station = begun;
    length
}

// A proved loop has to end, and nothing says that an input does: it counts its turns, up to a number that no run reaches.
fn main() {
    let mut player = Player::new();
    let mut station = Station::empty();
    let mut tally = Tally::default();
    for _ in 0..u64::MAX {
        let Some(letter) = next() else {
            break;
        };
        let length = turn(&mut player, letter, &mut station);
        tally.add(player.line(length));
    }
    tally.report();
}
