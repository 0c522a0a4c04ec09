// An event at its place on a sheet, and whether a sheet is whole: no field cut off, no event of 6 or 7, and the padding of a card.
ghost use Rattle.std.specs.Prelude.{◌≡◌, cond, ◌+◌, ◌^◌, ◌<◌};
ghost use Rattle.sheets.specs.Events.{frame_at, switch_at, switch as made, ask as asked, event_at, sheet_at};
ghost use Rattle.sheets.specs.Promises.{Reads, is_taken};

use cards::fields::Cursor;

#[derive(Clone, Copy)]
pub enum Event {
    // Its words stand from the bit `at` on.
    Frame {
        width: usize,
        height: usize,
        at: usize,
    },
    Reset,
    Switch {
        kind: u8,
        on: bool,
    },
    Step,
    Ask {
        kind: u8,
        on: bool,
    },
    Commit,
}

// A frame, behind its number: two sides of 11 bits, and 24 bits for each word.
fn frame(sheet: &mut Cursor) -> Option<Event>
    requires { sheet.old.at < 2 ^ 43 + 3 }
    ensures value { Reads sheet.old.bytes.now (sheet.old.at + 100565038) (frame_at sheet.old.bytes.now sheet.old.at) result sheet.new.at }
    ensures bytes { sheet.new.bytes ≡ sheet.old.bytes }
{
    let width = sheet.field(11).ok()? as usize;
    let height = sheet.field(11).ok()? as usize;
    let at = sheet.at;
    let end = at + 24 * (height * width);
    if sheet.bytes.len() < (end + 7) / 8 {
        return None;
    }
    sheet.at = end;
    Some(Event::Frame { width, height, at })
}

// A switch that is made, or asked for, behind its number. In line: a sheet is read event by event, and a call for each takes longer.
#[inline(always)]
fn switch(sheet: &mut Cursor, ask: bool) -> Option<Event>
    requires { sheet.old.at < 2 ^ 43 + 3 }
    ensures value { Reads sheet.old.bytes.now (sheet.old.at + 5) (switch_at (cond ask asked made) sheet.old.bytes.now sheet.old.at) result sheet.new.at }
    ensures bytes { sheet.new.bytes ≡ sheet.old.bytes }
{
    let kind = sheet.byte(4).ok()?;
    let on = sheet.byte(1).ok()? == 1;
    if ask {
        Some(Event::Ask { kind, on })
    } else {
        Some(Event::Switch { kind, on })
    }
}

// The event that stands next on the sheet, if one does.
pub fn read(sheet: &mut Cursor) -> Option<Event>
    requires { sheet.old.at < 2 ^ 43 }
    ensures value { Reads sheet.old.bytes.now (sheet.old.at + 100565041) (event_at sheet.old.bytes.now sheet.old.at) result sheet.new.at }
    ensures bytes { sheet.new.bytes ≡ sheet.old.bytes }
{
    match sheet.byte(3).ok()? {
        0 => frame(sheet),
        1 => Some(Event::Reset),
        2 => switch(sheet, false),
        3 => Some(Event::Step),
        4 => switch(sheet, true),
        5 => Some(Event::Commit),
        _ => None,
    }
}

// Whether a sheet can be played.
pub fn is_whole(sheet: &[u8]) -> bool
    ensures { result ≡ is_taken (sheet_at sheet.now 0) }
{
    let mut cursor = Cursor {
        bytes: sheet,
        at: 0,
    };
    let Ok(n) = cursor.field(16) else {
        return false;
    };
    for _ in 0..n {
        if read(&mut cursor).is_none() {
            return false;
        }
    }
    cursor.is_at_end()
}
