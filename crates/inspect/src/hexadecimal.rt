// Hexadecimal text as bytes: pairs of digits, with spaces before, between and after them.
ghost use Rattle.std.specs.Prelude.{◌≡◌, ◌<◌, ◌≤◌, true, ◌++◌, length, drop};
ghost use Rattle.inspect.specs.Hexadecimal.{hex_of, is_hex, bytes_of, decode_answer, decode_into};
ghost use Rattle.inspect.specs.Private.{value_of, pair_of, token_of, count_of};

// Why a text is not decoded.
#[derive(Clone, Copy, Debug, PartialEq, Eq)]
pub enum DecodeError {
    // It is not hexadecimal.
    NotHexadecimal,
    // The buffer has no room for its bytes.
    NoRoom,
}

// A space, or the byte of a pair of digits.
#[derive(Clone, Copy)]
enum Token {
    Space,
    Pair(u8),
}

// The value of a digit.
fn digit(c: u8) -> Option<u8>
    ensures { result ≡ value_of c }
{
    match c {
        b'0'..=b'9' => Some(c - b'0'),
        b'A'..=b'F' => Some(c - b'A' + 10),
        b'a'..=b'f' => Some(c - b'a' + 10),
        _ => None,
    }
}

// The byte of two digits.
fn pair(a: u8, b: u8) -> Option<u8>
    ensures { result ≡ pair_of a b }
{
    Some(digit(a)? * 16 + digit(b)?)
}

// What stands at a place of the text.
fn token_at(text: &[u8], at: usize) -> Option<Token>
    requires { at < length text.now }
    ensures { result ≡ token_of (drop at text.now) }
{
    let a = text[at];
    if a == b' ' {
        return Some(Token::Space);
    }
    if text.len() - at < 2 {
        return None;
    }
    Some(Token::Pair(pair(a, text[at + 1])?))
}

// How many bytes the text is, if it is hexadecimal.
fn count(text: &[u8]) -> Option<usize>
    ensures { result ≡ count_of (hex_of text.now) }
{
    let mut n = 0;
    let mut at = 0;
    // No `for`: a token takes one byte of the text, or two.
    while at < text.len() {
        match token_at(text, at)? {
            Token::Space => {
                at += 1;
            }
            Token::Pair(_) => {
                n += 1;
                at += 2;
            }
        }
    }
    Some(n)
}

// The bytes of hexadecimal text, at the start of the buffer.
fn fill(text: &[u8], out: &mut [u8])
    requires { (is_hex (hex_of text.now) ≡ true) × (length (bytes_of (hex_of text.now)) ≤ length out.old) }
    ensures { out.new ≡ bytes_of (hex_of text.now) ++ drop (length (bytes_of (hex_of text.now))) out.old }
{
    let mut n = 0;
    let mut at = 0;
    // No `for`, as in `count`.
    while at < text.len() {
        match token_at(text, at) {
            Some(Token::Space) => {
                at += 1;
            }
            Some(Token::Pair(b)) => {
                out[n] = b;
                n += 1;
                at += 2;
            }
            None => {
                return;
            }
        }
    }
}

// The bytes of a text at the start of the buffer, and how many they are. On an error nothing is written.
pub fn decode(text: &[u8], out: &mut [u8]) -> Result<usize, DecodeError>
    ensures { (result ≡ decode_answer text.now out.old) × (out.new ≡ decode_into text.now out.old) }
{
    let n = count(text).ok_or(DecodeError::NotHexadecimal)?;
    if out.len() < n {
        return Err(DecodeError::NoRoom);
    }
    fill(text, out);
    Ok(n)
}
