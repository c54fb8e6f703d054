// The words of a line that people write: parted by blanks, up to a '#'.
#![tactic(auto)]

ghost use Rattle.std.specs.Prelude.{◌≤◌, length};

const COMMENT: u8 = b'#';

fn is_blank(c: &u8) -> bool {
    matches!(c, b' ' | b'\t' | b'\r')
}

// The line without its comment.
pub fn content(line: &[u8]) -> &[u8] {
    line.split(|&c| c == COMMENT).next().unwrap_or(line)
}

fn past_blanks(s: &[u8]) -> &[u8]
    ensures { length result.now ≤ length s.now }
{
    let from = s.iter().position(|c| !is_blank(c)).unwrap_or(s.len());
    &s[from..]
}

// What stands before the first blank, and from there on.
fn parted(s: &[u8]) -> (&[u8], &[u8]) {
    let end = s.iter().position(is_blank).unwrap_or(s.len());
    s.split_at(end)
}

// Word k, or nothing where there are fewer. Blanks are passed over in one go, not parted into words of no bytes.
pub fn word(line: &[u8], k: usize) -> &[u8] {
    let mut rest = line;
    for _ in 0..k {
        rest = parted(past_blanks(rest)).1;
    }
    parted(past_blanks(rest)).0
}

// How many words there are: one begins at each byte that is no blank, where the byte before it is one or there is none.
pub fn words(line: &[u8]) -> usize {
    let first = line.first().is_some_and(|c| !is_blank(c));
    let behind_blanks = line
        .windows(2)
        .filter(|pair| matches!(pair, [a, b] if is_blank(a) && !is_blank(b)))
        .count();
    behind_blanks.saturating_add(usize::from(first))
}
