// Files that arguments name: sheets, events.
ghost use Rattle.std.specs.Prelude.{◌<◌};
ghost use Rattle.io.specs.Counts.{IsPrefixLen};

use crate::says;
use cards::fields::Cursor;
use cli::input;
use cli::input::Loaded;

// The file that argument i names; where it cannot be taken whole, it is said why.
pub fn load(rt: HostRuntime, i: usize, out: &mut [u8]) -> Loaded
    ensures { IsPrefixLen result.length out.new }
{
    let loaded = input::named(rt, i, out);
    if loaded.more {
        says::too_long(rt, i);
        return Loaded {
            ok: false,
            length: 0,
            more: true,
        };
    }
    loaded
}

// How many events a sheet says that it has.
pub fn count(sheet: &[u8]) -> u32
    ensures { result < 65536 }
{
    let mut cursor = Cursor {
        bytes: sheet,
        at: 0,
    };
    let Ok(n) = cursor.field(16) else {
        return 0;
    };
    n
}
