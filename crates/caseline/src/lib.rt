// The parts of a line of cases: words that tabs part, bytes in hex, numbers; the answer that is put together, and where lines come from.
#![tactic(auto)]

pub mod input;
pub mod put;

ghost use Rattle.std.specs.Prelude.{◌≡◌, ◌≤◌, ◌<◌, length, IfSome, IsNone};

const TAB: u8 = b'\t';

// Digits of the longest number: far from wrapping.
const MOST_DIGITS: usize = 9;

// ---- words

// Word k, or nothing where there are fewer.
pub fn word(line: &[u8], k: usize) -> &[u8] {
    line.split(|b| *b == TAB).nth(k).unwrap_or(&[])
}

// How many words there are: one more than tabs.
pub fn words(line: &[u8]) -> usize {
    line.split(|b| *b == TAB).count()
}

// ---- bytes in hex

fn digit(c: u8) -> Option<u8>
    ensures { IfSome result (λ d. d < 16) }
{
    match c {
        b'0'..=b'9' => Some(c - b'0'),
        b'a'..=b'f' => Some(c - b'a' + 10),
        _ => None,
    }
}

// The byte that two digits name; a character that is none counts as no digit at all.
fn octet(high: u8, low: u8) -> u8 {
    16 * digit(high).unwrap_or(0) + digit(low).unwrap_or(0)
}

// Each character is looked at, since a loop that may stop early takes longer for each.
pub fn is_hex(text: &[u8]) -> bool {
    let mut good = text.len() % 2 == 0;
    for c in text {
        good &= digit(*c).is_some();
    }
    good
}

// The bytes of digits two by two, as many as fit.
fn unhex(text: &[u8], out: &mut [u8]) {
    for (byte, pair) in out.iter_mut().zip(text.chunks_exact(2)) {
        *byte = octet(pair[0], pair[1]);
    }
}

// Puts the bytes at the start of out and tells how many; what is malformed or does not fit leaves out as it was.
pub fn hex(text: &[u8], out: &mut [u8]) -> Option<usize>
    ensures inside { IfSome result (λ n. n ≤ length out.new) }
    ensures refused { IsNone result → out.new ≡ out.old }
{
    let n = text.len() / 2;
    if !is_hex(text) || out.len() < n {
        return None;
    }
    unhex(text, out);
    Some(n)
}

// ---- numbers

pub fn number(text: &[u8]) -> Option<usize> {
    if text.is_empty() || MOST_DIGITS < text.len() {
        return None;
    }
    let mut n: usize = 0;
    for c in text {
        let d = digit(*c).filter(|d| *d < 10)?;
        n = n.checked_mul(10)?.checked_add(usize::from(d))?;
    }
    Some(n)
}

// A number of two bytes.
pub fn short(text: &[u8]) -> Option<usize>
    ensures { IfSome result (λ n. n < 65536) }
{
    number(text).filter(|n| *n < 65536)
}
