//! The lines of a text: where they end, and the first one that has tokens.
ghost use Rattle.std.specs.Prelude.{◌≡◌, ◌<◌, ◌≤◌, length, take_while, IfSome, MatchOption};
ghost use Rattle.std.specs.List.{list_all};
ghost use Rattle.gf_fan_files.specs.Lines.{is_capital, is_section_byte, is_section_name, goes_on_line, is_no_comment, sections_from, with_tokens};
ghost use Rattle.gf_fan_files.specs.Lines.{tokens_between};
ghost use Rattle.gf_fan_files.specs.Found.{IsLineFound, IsLineWithin};

use gf_text::word_from;

/// The first line that has tokens, at a place or behind it.
#[derive(Clone, Copy)]
pub(crate) enum TextLine {
    /// There is none.
    Ended,
    /// The name of a section; the next line begins at `next`.
    Name {
        start: usize,
        end: usize,
        next: usize,
    },
    /// Another line, from `from` to `end` without its comment, whose first token begins at `start`.
    Tokens {
        start: usize,
        from: usize,
        end: usize,
        next: usize,
    },
}

/// A to Z.
fn is_capital(b: u8) -> bool
    ensures { result ≡ is_capital b }
{
    b.is_ascii_uppercase()
}

/// A capital letter, a digit or `_`.
fn is_section_byte(b: u8) -> bool
    ensures { result ≡ is_section_byte b }
{
    b.is_ascii_uppercase() || b.is_ascii_digit() || b == b'_'
}

/// Whether all bytes are capital letters, digits or `_`.
fn are_section_bytes(bytes: &[u8]) -> bool
    ensures { result ≡ list_all is_section_byte bytes.now }
{
    bytes.iter().all(|b| is_section_byte(*b))
}

/// Whether a token is the name of a section: a capital letter, and then capital letters, digits and `_`.
fn is_section_name(t: &[u8]) -> bool
    ensures { result ≡ is_section_name t.now }
{
    let [first, rest @ ..] = t else {
        return false;
    };
    is_capital(*first) && are_section_bytes(rest)
}

/// How many bytes the first line of a text has.
fn line_length(text: &[u8]) -> usize
    ensures size { result ≡ length (take_while goes_on_line text.now) }
    ensures within { result ≤ length text.now }
{
    text.iter().take_while(|b| **b != b'\n').count()
}

/// How many bytes of a line stand before its comment.
fn text_length(line: &[u8]) -> usize
    ensures size { result ≡ length (take_while is_no_comment line.now) }
    ensures within { result ≤ length line.now }
{
    line.iter().take_while(|b| **b != b'#').count()
}

/// Where the text of the line that stands at a place ends, before its comment, and where the next line begins.
fn line_at(source: &[u8], at: usize) -> (usize, usize)
    requires { at ≤ length source.now }
    ensures line { sections_from source.now at ≡ with_tokens (tokens_between source.now at result.0) (sections_from source.now result.1) }
    ensures within { (at ≤ result.0) × (result.0 ≤ result.1) × (result.1 ≤ length source.now) }
    ensures forward { at < length source.now → at < result.1 }
{
    let rest = &source[at..];
    let whole = line_length(rest);
    let text = text_length(&rest[..whole]);
    if whole < rest.len() {
        return (at + text, at + whole + 1);
    }
    (at + text, source.len())
}

/// What the line from `from` to `end` is, where it has tokens; the next line begins at `next`.
fn line_between(source: &[u8], from: usize, end: usize, next: usize) -> Option<TextLine>
    requires line { sections_from source.now from ≡ with_tokens (tokens_between source.now from end) (sections_from source.now next) }
    requires within { (from ≤ end) × (end ≤ next) × (next ≤ length source.now) }
    ensures line { MatchOption result (sections_from source.now from ≡ sections_from source.now next) (IsLineFound source.now (sections_from source.now from)) }
    ensures within { IfSome result (IsLineWithin source.now) }
{
    let text = &source[..end];
    let Some((start, behind)) = word_from(text, from) else {
        return None;
    };
    let tokens = TextLine::Tokens {
        start,
        from,
        end,
        next,
    };
    if !is_section_name(&text[start..behind]) {
        return Some(tokens);
    }
    let Some(_) = word_from(text, behind) else {
        return Some(TextLine::Name {
            start,
            end: behind,
            next,
        });
    };
    Some(tokens)
}

/// The first line that has tokens, at a place or behind it.
pub(crate) fn line_from(source: &[u8], at: usize) -> TextLine
    requires { at ≤ length source.now }
    ensures line { IsLineFound source.now (sections_from source.now at) result }
    ensures within { IsLineWithin source.now result }
{
    let mut place = at;
    while place < source.len() {
        let (end, next) = line_at(source, place);
        if let Some(line) = line_between(source, place, end, next) {
            return line;
        }
        place = next;
    }
    TextLine::Ended
}
