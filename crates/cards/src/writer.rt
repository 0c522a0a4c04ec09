// Writing a station as a card: fields laid down bit by bit, then packed into bytes.
ghost use Rattle.std.specs.Prelude.{◌≡◌, ℕ, ◌+◌, ◌*◌, ◌<◌, ◌≤◌, length, drop, get_or};
ghost use Rattle.cards.specs.Written.{bits, real, pass_bits, record_bits, chain_bits, value_of, pack};
ghost use Rattle.std.specs.Float.{binary32};
ghost use Rattle.std.specs.Float.Ieee.{to_bits};
ghost use Rattle.cards.specs.Sheet.{lay, blank};
ghost use Rattle.cards.specs.Answers.{written};
ghost use Rattle.cards.specs.Write.{write_reply, write_into};

use super::station::{Pass, Record, Station};
use num::refusal::Refusal;

// The bits of a float; every NaN by the one pattern of the definition.
pub fn real_bits(x: f32) -> u32
    ensures { result ≡ to_bits binary32 x }
{
    if x != x {
        return 0x7FC0_0000;
    }
    f32::to_bits(x)
}

// Bits laid down one after another, a bit in a byte: `at` of them so far. Twelve records of at most 133 bits have room.
#[derive(Clone, Copy)]
pub struct Sheet {
    pub bits: [u8; 1608],
    pub at: usize,
}

impl Sheet {
    fn put(&mut self, width: usize, v: u32)
        requires { (width ≤ 32) × (self.old.at + width ≤ 1608) }
        ensures bits { self.new ≡ lay self.old (bits width v) }
        ensures place { self.new.at ≡ self.old.at + width }
    {
        for i in 0..width {
            self.bits[self.at + i] = ((v >> (width - 1 - i)) % 2) as u8;
        }
        self.at += width;
    }

    fn put_real(&mut self, x: f32)
        requires { self.old.at + 32 ≤ 1608 }
        ensures bits { self.new ≡ lay self.old (real x) }
        ensures place { self.new.at ≡ self.old.at + 32 }
    {
        self.put(32, real_bits(x));
    }

    #[tactic(auto, using(crate::proofs::Sheets::laying), unfolding(crate::specs::Written::pass_bits))]
    fn put_pass(&mut self, pass: Pass)
        requires { self.old.at ≤ 1480 }
        ensures { self.new ≡ lay self.old (pass_bits pass) }
    {
        match pass {
            Pass::Ntsc { strength, bleed } => {
                self.put_real(strength);
                self.put(8, bleed as u32);
            }
            Pass::Bloom {
                threshold,
                strength,
                radius,
            } => {
                self.put(8, threshold as u32);
                self.put_real(strength);
                self.put(8, radius as u32);
            }
            Pass::AutoGradient {
                strength,
                vertical,
                horizontal,
            } => {
                self.put_real(strength);
                self.put_real(vertical);
                self.put_real(horizontal);
            }
            Pass::Persistence { amount, depth } => {
                self.put_real(amount);
                self.put(8, depth as u32);
            }
            Pass::Lut { preset, strength } => {
                self.put(3, preset as u32);
                self.put_real(strength);
            }
            Pass::Curvature { amount } => self.put_real(amount),
            Pass::ColorCorrection {
                brightness,
                contrast,
                saturation,
                gamma,
            } => {
                self.put_real(brightness);
                self.put_real(contrast);
                self.put_real(saturation);
                self.put_real(gamma);
            }
            Pass::Crt { strength } => self.put_real(strength),
            Pass::Vignette { strength } => self.put_real(strength),
            Pass::Scanlines { strength } => self.put_real(strength),
        }
    }

    #[tactic(auto, using(crate::proofs::Sheets::laying), unfolding(crate::specs::Written::record_bits))]
    fn put_record(&mut self, r: Record)
        requires { self.old.at ≤ 1475 }
        ensures { self.new ≡ lay self.old (record_bits r) }
    {
        self.put(4, r.pass.kind() as u32);
        self.put(1, r.on as u32);
        self.put_pass(r.pass);
    }
}

// The card's bits of the records.
fn chain(records: &[Record]) -> Sheet
    requires { length records.now ≤ 12 }
    ensures { result ≡ lay blank (chain_bits records.now) }
{
    let mut sheet = Sheet {
        bits: [0; 1608],
        at: 0,
    };
    sheet.put(4, 1);
    sheet.put(4, records.len() as u32);
    for r in records {
        sheet.put_record(*r);
    }
    sheet
}

// Byte j of the bits.
fn byte_of(bits: &[u8; 1608], j: usize) -> u8
    requires { (j < 201) × ((i : ℕ) → get_or bits.now i 0 < 2) }
    ensures { result ≡ value_of (drop (8 * j) bits.now) 8 }
{
    let mut value = 0;
    for i in 0..8 {
        value = value * 2 + bits[8 * j + i];
    }
    value
}

// The bytes become those of the bits.
fn pack(buf: &mut [u8], bits: &[u8; 1608])
    requires { (length buf.old ≤ 201) × ((i : ℕ) → get_or bits.now i 0 < 2) }
    ensures { buf.new ≡ pack (length buf.old) bits.now }
{
    for (j, byte) in buf.iter_mut().enumerate() {
        *byte = byte_of(bits, j);
    }
}

// The station's card at the start of the buffer, and its length.
pub fn write(station: &Station, buf: &mut [u8]) -> Result<usize, Refusal>
    ensures { (written result station.now ≡ write_reply station.now buf.old) × (buf.new ≡ write_into station.now buf.old) }
{
    if !station.is_good() {
        return Err(Refusal::BadStation);
    }
    let sheet = chain(station.chain());
    let bytes = (sheet.at + 7) / 8;
    if buf.len() < bytes {
        return Err(Refusal::ShortCardBuffer);
    }
    pack(&mut buf[..bytes], &sheet.bits);
    Ok(bytes)
}
