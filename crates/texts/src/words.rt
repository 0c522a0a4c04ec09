// The words of a line: what stands between blanks. A comma, a colon and an equals sign are blanks too.
ghost use Rattle.std.specs.Prelude.{◌≡◌, ◌+◌, ◌≤◌, length, drop};
ghost use Rattle.texts.specs.Words.{is_blank, is_letter, front, next_word, span_of, word_of, is as is_of};

// From where to where a word stands in its line.
#[derive(Clone, Copy)]
pub struct Span {
    pub from: usize,
    pub to: usize,
}

fn is_blank(b: u8) -> bool
    ensures { result ≡ is_blank b }
{
    matches!(b, b'\t' | b'\r' | b' ' | b',' | b':' | b'=')
}

// The first place from `at` on that is no blank.
fn skip(line: &[u8], at: usize) -> usize
    requires { at ≤ length line.now }
    ensures { (result ≡ at + front is_blank (drop at line.now)) × (result ≤ length line.now) }
{
    let rest = &line[at..];
    at + rest
        .iter()
        .position(|b| !is_blank(*b))
        .unwrap_or(rest.len())
}

// The first blank from `at` on, or the line's end.
fn stop(line: &[u8], at: usize) -> usize
    requires { at ≤ length line.now }
    ensures { (result ≡ at + front is_letter (drop at line.now)) × (result ≤ length line.now) }
{
    let rest = &line[at..];
    at + rest.iter().position(|b| is_blank(*b)).unwrap_or(rest.len())
}

// The next word from `at` on.
fn next(line: &[u8], at: usize) -> Span
    requires { at ≤ length line.now }
    ensures { (result ≡ next_word line.now at) × (result.from ≤ result.to) × (result.to ≤ length line.now) }
{
    let from = skip(line, at);
    let to = stop(line, from);
    Span { from, to }
}

// Word i, counted from 0; past the last one it is empty.
pub fn nth(line: &[u8], i: usize) -> Span
    ensures { (result ≡ span_of line.now i) × (result.from ≤ result.to) × (result.to ≤ length line.now) }
{
    let mut word = next(line, 0);
    for _ in 0..i {
        word = next(line, word.to);
    }
    word
}

// The bytes of that word.
pub(crate) fn word(line: &[u8], i: usize) -> &[u8]
    ensures { result.now ≡ word_of line.now i }
{
    let Span { from, to } = nth(line, i);
    &line[from..to]
}

// Whether a word is a name, whatever the case of either.
pub(crate) fn is(word: &[u8], name: &[u8]) -> bool
    ensures { result ≡ is_of word.now name.now }
{
    word.eq_ignore_ascii_case(name)
}
