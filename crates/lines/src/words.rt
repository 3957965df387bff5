// The words of a line, and the number that a word writes.
ghost use Rattle.std.specs.Prelude.{◌≡◌, [], get_or, length};
ghost use Rattle.lines.specs.Pieces.{blank, words_of};
ghost use Rattle.lines.specs.Number.{number_of};

const MOST_DIGITS: usize = 9;

// A space or a tab.
#[tactic(auto, unfolding(crate::specs::Pieces::blank))]
fn blank(b: u8) -> bool
    ensures { result ≡ blank b }
{
    b == b' ' || b == b'\t'
}

// How many words a line has.
pub fn count(line: &[u8]) -> usize
    ensures { result ≡ length (words_of line.now) }
{
    line.split(|b| blank(*b)).filter(|w| !w.is_empty()).count()
}

// Word i of a line, counted from 0; empty where there are fewer.
pub fn word(line: &[u8], i: usize) -> &[u8]
    ensures { result.now ≡ get_or (words_of line.now) i [] }
{
    line.split(|b| blank(*b))
        .filter(|w| !w.is_empty())
        .nth(i)
        .unwrap_or(&[])
}

// The number that a word of 1 to MOST_DIGITS digits writes.
pub fn number(word: &[u8]) -> Option<u64>
    ensures { result ≡ number_of word.now }
{
    if word.is_empty() || MOST_DIGITS < word.len() {
        return None;
    }
    let mut x: u64 = 0;
    for b in word {
        // Document 01, "Forms for specific places", asks for a match on digit ranges.
        match *b {
            b'0'..=b'9' => x = x * 10 + u64::from(*b - b'0'),
            _ => return None,
        }
    }
    Some(x)
}
