//! The tokens of a section's content, one after another: those of its lines, the end of each line, the end of the section.
ghost use Rattle.std.specs.Prelude.{◌≡◌, ◌≤◌, ◌∷◌, [], ℕ, List, length, bytes_eq, IfSome, MatchOption};
ghost use Rattle.gf_text.specs.Marks.{minus_mark};
ghost use Rattle.gf_fan_files.specs.Lines.{sections_from, front_place, content_from};
ghost use Rattle.gf_fan_files.specs.Found.{lexeme_of, tokens_left, IsPlaceWithin, IsTokenWithin};

use crate::lines::{TextLine, line_from};
use gf_text::word_from;

/// A token of a content.
#[derive(Clone, Copy)]
pub(crate) enum Token {
    /// Bytes of a line.
    Word { start: usize, end: usize },
    /// Bytes of a line that white space parts from the `-` before them.
    Blank { at: usize },
    /// The end of a line, which stands where the next token stands.
    LineEnd { at: usize },
    /// The end of the section.
    SectionEnd { at: usize },
}

/// What is left of a content.
#[derive(Clone, Copy)]
pub(crate) enum Place {
    /// The rest of a line, from `at` to `end` without its comment, behind a `-` or something else; the next line begins at
    /// `next`.
    Within {
        at: usize,
        end: usize,
        next: usize,
        minus: bool,
    },
    /// The end of the section.
    End {
        at: usize,
    },
    /// Nothing.
    Behind,
}

/// What is left of the content that begins at a place, and where its first token stands.
pub(crate) fn content_at(source: &[u8], at: usize) -> (Place, usize)
    requires { at ≤ length source.now }
    ensures tokens { tokens_left source.now result.0 ≡ content_from source.now at }
    ensures first { result.1 ≡ front_place (length source.now) (sections_from source.now at) }
    ensures within { IsPlaceWithin source.now result.0 }
{
    match line_from(source, at) {
        TextLine::Ended => (Place::End { at: source.len() }, source.len()),
        TextLine::Name { start, .. } => (Place::End { at: start }, start),
        TextLine::Tokens {
            start,
            from,
            end,
            next,
        } => (
            Place::Within {
                at: from,
                end,
                next,
                minus: false,
            },
            start,
        ),
    }
}

/// The next token of a line, and what is left behind it.
fn line_token(source: &[u8], at: usize, end: usize, next: usize, minus: bool) -> (Token, Place)
    requires { (at ≤ end) × (end ≤ length source.now) × (next ≤ length source.now) }
    ensures token { tokens_left source.now (Place.Within at end next minus) ≡ lexeme_of source.now result.0 ∷ tokens_left source.now result.1 }
    ensures within { IsTokenWithin source.now result.0 }
    ensures rest { IsPlaceWithin source.now result.1 }
{
    let text = &source[..end];
    let Some((start, behind)) = word_from(text, at) else {
        let (place, first) = content_at(source, next);
        return (Token::LineEnd { at: first }, place);
    };
    let rest = Place::Within {
        at: behind,
        end,
        next,
        minus: is_minus(&text[start..behind]),
    };
    if minus && at != start {
        return (Token::Blank { at: start }, rest);
    }
    (Token::Word { start, end: behind }, rest)
}

/// The next token of a content, and what is left behind it.
pub(crate) fn token_at(source: &[u8], place: Place) -> Option<(Token, Place)>
    requires { IsPlaceWithin source.now place }
    ensures token { MatchOption result (tokens_left source.now place ≡ []) (λ t. tokens_left source.now place ≡ lexeme_of source.now t.0 ∷
        tokens_left source.now t.1) }
    ensures within { IfSome result (λ t. IsTokenWithin source.now t.0) }
    ensures rest { IfSome result (λ t. IsPlaceWithin source.now t.1) }
{
    match place {
        Place::Within {
            at,
            end,
            next,
            minus,
        } => Some(line_token(source, at, end, next, minus)),
        Place::End { at } => Some((Token::SectionEnd { at }, Place::Behind)),
        Place::Behind => None,
    }
}

/// The text of a token.
pub(crate) fn text_of(source: &[u8], token: Token) -> &[u8]
    requires { IsTokenWithin source.now token }
    ensures { result.now ≡ (lexeme_of source.now token).text }
{
    match token {
        Token::Word { start, end } => &source[start..end],
        Token::Blank { .. } => b" ".as_slice(),
        Token::LineEnd { .. } => b"\n".as_slice(),
        Token::SectionEnd { .. } => b"".as_slice(),
    }
}

/// The place of a token.
pub(crate) fn place_of(token: Token) -> usize
    ensures { (source : List ℕ) → result ≡ (lexeme_of source token).at }
{
    match token {
        Token::Word { start, .. } => start,
        Token::Blank { at } | Token::LineEnd { at } | Token::SectionEnd { at } => at,
    }
}

/// Whether a token is a `-`.
fn is_minus(t: &[u8]) -> bool
    ensures { result ≡ bytes_eq t.now minus_mark }
{
    t == b"-".as_slice()
}
