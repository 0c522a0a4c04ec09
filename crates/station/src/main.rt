// Program `station` of document 01: reads a card and events from standard input, and writes a line for each event. It only reads, calls and writes: what an
// event does and what is printed is said by crate `events`.
#![tactic(auto)]

use player::Player;

// Standard output by its number, which the functions of `io` take.
const STDOUT_FILENO: i32 = 1;

// A proved loop has to end, and nothing says that an input does: it counts its turns, up to a number that no run reaches.
fn main() {
    let mut player = Player::new();
    let mut station = match player.begin() {
        Ok(station) => station,
        Err(refused) => {
            io::write_all(STDOUT_FILENO, player.line(refused.length));
            return;
        }
    };
    for _ in 0..u64::MAX {
        let played = player.turn(&mut station);
        if !io::write_all(STDOUT_FILENO, player.line(played.length)) || !played.more {
            return;
        }
    }
}
