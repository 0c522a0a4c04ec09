// A station's chain as text, into a buffer: a line for each pass. What the text is: specs/Print.antt.
ghost use Rattle.std.specs.Prelude.{◌≡◌, ◌+◌, ◌≤◌, length};
ghost use Rattle.inspect.specs.Decimal.{Digits};
ghost use Rattle.texts.specs.Names.{kind_name, preset_name, setting_name};
ghost use Rattle.texts.specs.Print.{down, pointed, sign_text, real_text, whole_text, count_text, value_text, mark_text, label_text, setting_text, place_text};
ghost use Rattle.texts.specs.Print.{settings_text, switch_text, line_text, lines_text, text_of, print_reply, print_into, Lays};
ghost use Rattle.texts.specs.Words.{Begins};

use super::names::{kind_name, preset_name, setting_name};
use cards::station::{Pass, Record, Station};
use inspect::decimal::exact;
use inspect::settings::{Setting, setting_at};
use num::refusal::Refusal;

// A buffer, and the place up to which text stands in it.
#[derive(Drop)]
struct Page<'a> {
    out: &'a mut [u8],
    at: usize,
}

// 150 zeros, made by a function, so that a proof sees the length alone.
fn zeros() -> [u8; 150]
    ensures { 150 ≡ length result }
{
    [0; 150]
}

impl Page<'_> {
    // A text behind what stands there.
    fn put(&mut self, text: &[u8])
        requires { self.old.at + length text.now ≤ length self.old.out.now }
        ensures { Lays text.now (length text.now) self.old self.new }
    {
        let to = self.at + text.len();
        let out = &mut *self.out;
        out[self.at..to].copy_from_slice(text);
        self.at = to;
    }

    // The digits behind the point.
    fn digits_down(&mut self, digits: &[u8], places: usize)
        requires { Digits digits.now × (places ≤ 149) × (self.old.at + places ≤ length self.old.out.now) }
        ensures { Lays (down places digits.now) places self.old self.new }
    {
        for i in (0..places).rev() {
            self.put(&[b'0' + digits[i]]);
        }
    }

    // The digits, with the point among them.
    fn put_point(&mut self, digits: &[u8], places: usize)
        requires { Digits digits.now × (places ≤ 149) × (self.old.at + 151 ≤ length self.old.out.now) }
        ensures { Lays (pointed places digits.now) 151 self.old self.new }
    {
        self.put(&[b'0' + digits[places]]);
        if places != 0 {
            self.put(b".");
            self.digits_down(digits, places);
        }
    }

    fn put_sign(&mut self, negative: bool)
        requires { self.old.at + 1 ≤ length self.old.out.now }
        ensures { Lays (sign_text negative) 1 self.old self.new }
    {
        if negative {
            self.put(b"-");
        }
    }

    // All digits of x.
    fn put_real(&mut self, x: f32)
        requires { self.old.at + 152 ≤ length self.old.out.now }
        ensures { Lays (real_text x) 152 self.old self.new }
    {
        let mut digits = zeros();
        let point = exact(x, &mut digits);
        self.put_sign(point.negative);
        self.put_point(&digits, point.places);
    }

    fn put_whole(&mut self, v: u8)
        requires { self.old.at + 3 ≤ length self.old.out.now }
        ensures { Lays (whole_text v) 3 self.old self.new }
    {
        if v < 10 {
            self.put(&[b'0' + v]);
        } else if v < 100 {
            self.put(&[b'0' + v / 10, b'0' + v % 10]);
        } else {
            self.put(&[b'0' + v / 100, b'0' + v / 10 % 10, b'0' + v % 10]);
        }
    }

    // The pass of that kind, by its name.
    fn put_kind(&mut self, kind: u8)
        requires { self.old.at + 11 ≤ length self.old.out.now }
        ensures { Lays (kind_name kind) 11 self.old self.new }
    {
        self.put(kind_name(kind));
    }

    fn put_preset(&mut self, preset: u8)
        requires { self.old.at + 13 ≤ length self.old.out.now }
        ensures { Lays (preset_name preset) 13 self.old self.new }
    {
        self.put(preset_name(preset));
    }

    fn put_name(&mut self, kind: u8, j: usize)
        requires { self.old.at + 10 ≤ length self.old.out.now }
        ensures { Lays (setting_name kind j) 10 self.old self.new }
    {
        self.put(setting_name(kind, j));
    }

    // What stands before the first setting, and before another.
    fn put_mark(&mut self, j: usize)
        requires { self.old.at + 2 ≤ length self.old.out.now }
        ensures { Lays (mark_text j) 2 self.old self.new }
    {
        if j == 0 {
            self.put(b": ");
        } else {
            self.put(b", ");
        }
    }

    // What stands before a value.
    fn put_label(&mut self, kind: u8, j: usize)
        requires { self.old.at + 13 ≤ length self.old.out.now }
        ensures { Lays (label_text kind j) 13 self.old self.new }
    {
        self.put_mark(j);
        self.put_name(kind, j);
        self.put(b" ");
    }

    // A whole number, or the preset that it stands for.
    fn put_count(&mut self, kind: u8, v: u8)
        requires { self.old.at + 13 ≤ length self.old.out.now }
        ensures { Lays (count_text kind v) 13 self.old self.new }
    {
        if kind == 5 {
            self.put_preset(v);
        } else {
            self.put_whole(v);
        }
    }

    fn put_value(&mut self, kind: u8, s: Option<Setting>)
        requires { self.old.at + 152 ≤ length self.old.out.now }
        ensures { Lays (value_text kind s) 152 self.old self.new }
    {
        match s {
            Some(Setting::Real(x)) => self.put_real(x),
            Some(Setting::Whole(v)) => self.put_count(kind, v),
            None => {}
        }
    }

    fn put_setting(&mut self, kind: u8, j: usize, s: Option<Setting>)
        requires { self.old.at + 165 ≤ length self.old.out.now }
        ensures { Lays (setting_text kind j s) 165 self.old self.new }
    {
        if s.is_some() {
            self.put_label(kind, j);
            self.put_value(kind, s);
        }
    }

    // The setting at place j of a pass, if it has one.
    fn put_place(&mut self, pass: Pass, j: usize)
        requires { self.old.at + 165 ≤ length self.old.out.now }
        ensures { Lays (place_text pass j) 165 self.old self.new }
    {
        self.put_setting(pass.kind(), j, setting_at(pass, j));
    }

    fn put_settings(&mut self, pass: Pass)
        requires { self.old.at + 660 ≤ length self.old.out.now }
        ensures { Lays (settings_text pass) 660 self.old self.new }
    {
        self.put_place(pass, 0);
        self.put_place(pass, 1);
        self.put_place(pass, 2);
        self.put_place(pass, 3);
    }

    fn put_switch(&mut self, on: bool)
        requires { self.old.at + 3 ≤ length self.old.out.now }
        ensures { Lays (switch_text on) 3 self.old self.new }
    {
        if on {
            self.put(b"on");
        } else {
            self.put(b"off");
        }
    }

    // The line of a pass.
    fn put_record(&mut self, r: &Record)
        requires { self.old.at + 677 ≤ length self.old.out.now }
        ensures { Lays (line_text r.now) 677 self.old self.new }
    {
        self.put_kind(r.pass.kind());
        self.put(b", ");
        self.put_switch(r.on);
        self.put_settings(r.pass);
        self.put(b"\n");
    }

    // The lines of a chain.
    fn put_chain(&mut self, chain: &[Record])
        requires { (length chain.now ≤ 12) × (self.old.at + 8192 ≤ length self.old.out.now) }
        ensures { Lays (lines_text chain.now) 8192 self.old self.new }
    {
        for r in chain {
            self.put_record(r);
        }
    }

    // The text of a chain.
    fn put_text(&mut self, chain: &[Record])
        requires { (length chain.now ≤ 12) × (self.old.at + 8192 ≤ length self.old.out.now) }
        ensures { Lays (text_of chain.now) 8192 self.old self.new }
    {
        if chain.is_empty() {
            self.put(b"none\n");
        } else {
            self.put_chain(chain);
        }
    }
}

// The value of a setting of that kind of pass at the start of the buffer, and its length.
pub fn value(kind: u8, s: Option<Setting>, out: &mut [u8; 152]) -> usize
    ensures { Begins (value_text kind s) result out.new }
{
    let mut page = Page { out, at: 0 };
    page.put_value(kind, s);
    page.at
}

// The text of the station's chain at the start of the buffer, and its length; refused for a bad station, and for a buffer that may be too short: of fewer than
// 8,192 bytes. No text is longer.
pub fn print(station: &Station, out: &mut [u8]) -> Result<usize, Refusal>
    ensures { (result ≡ print_reply station.now out.old) × (out.new ≡ print_into station.now out.old) }
{
    if !station.is_good() {
        return Err(Refusal::BadStation);
    }
    if out.len() < 8192 {
        return Err(Refusal::ShortCardBuffer);
    }
    let mut page = Page { out, at: 0 };
    page.put_text(station.chain());
    Ok(page.at)
}
