// What one line says, by its first byte and its words.
ghost use Rattle.std.specs.Prelude.{◌≡◌, unwrap_or};
ghost use Rattle.lines.specs.Meaning.{word, shaped, source_or_sink, problem_line, terminal_line, arc_line, meaning};
ghost use Rattle.lines.specs.Number.{number_of};
ghost use Rattle.lines.specs.Pieces.{words_of};

use crate::Line;
use crate::words::{count, number, word};

// The line has n words, the first of which is its letter alone.
#[tactic(auto, unfolding(crate::specs::Meaning::shaped))]
fn shaped(line: &[u8], n: usize) -> bool
    ensures { result ≡ shaped n (words_of line.now) }
{
    count(line) == n && word(line, 0).len() == 1
}

// The number that word i writes.
fn number_at(line: &[u8], i: usize) -> Option<u64>
    ensures { result ≡ number_of (word (words_of line.now) i) }
{
    number(word(line, i))
}

// p max N M
#[tactic(auto, using(crate::proofs::Bytes::byte_tests), unfolding(crate::specs::Meaning::problem_line, crate::specs::Meaning::given))]
fn problem(line: &[u8]) -> Option<Line>
    ensures { unwrap_or result Line.Broken ≡ problem_line (words_of line.now) }
{
    if !shaped(line, 4) || word(line, 1) != b"max".as_slice() {
        return None;
    }
    let n = number_at(line, 2)?;
    let m = number_at(line, 3)?;
    Some(Line::Problem(n, m))
}

// s or t, at node v
#[tactic(auto, using(crate::proofs::Bytes::byte_tests), unfolding(crate::specs::Meaning::source_or_sink))]
fn source_or_sink(w: &[u8], v: u64) -> Line
    ensures { result ≡ source_or_sink w.now v }
{
    if w == b"s".as_slice() {
        Line::Source(v)
    } else if w == b"t".as_slice() {
        Line::Sink(v)
    } else {
        Line::Broken
    }
}

// n N s, or n N t
#[tactic(auto, unfolding(crate::specs::Meaning::terminal_line, crate::specs::Meaning::given))]
fn terminal(line: &[u8]) -> Option<Line>
    ensures { unwrap_or result Line.Broken ≡ terminal_line (words_of line.now) }
{
    if !shaped(line, 3) {
        return None;
    }
    let v = number_at(line, 1)?;
    Some(source_or_sink(word(line, 2), v))
}

// a N N N
#[tactic(auto, unfolding(crate::specs::Meaning::arc_line, crate::specs::Meaning::given))]
fn arc(line: &[u8]) -> Option<Line>
    ensures { unwrap_or result Line.Broken ≡ arc_line (words_of line.now) }
{
    if !shaped(line, 4) {
        return None;
    }
    let u = number_at(line, 1)?;
    let v = number_at(line, 2)?;
    let c = number_at(line, 3)?;
    Some(Line::Arc(u, v, c))
}

// The first byte decides.
fn lettered(line: &[u8]) -> Option<Line>
    ensures { unwrap_or result Line.Broken ≡ meaning line.now }
{
    match line.first()? {
        b'c' => Some(Line::Comment),
        b'p' => problem(line),
        b'n' => terminal(line),
        b'a' => arc(line),
        _ => None,
    }
}

// What the line says.
pub fn meaning(line: &[u8]) -> Line
    ensures { result ≡ meaning line.now }
{
    lettered(line).unwrap_or(Line::Broken)
}
