//! The tokens of a text.
ghost use Rattle.std.specs.Prelude.{◌≡◌, ◌<◌, ◌≤◌, ◌^◌, ◌-◌, ◌∷◌, [], drop, length, take_while, max, nat_eq, bytes_eq, true, MatchOption, IfSome};
ghost use Rattle.std.specs.Prelude.{if◌then◌else◌};
ghost use Rattle.std.specs.List.{list_all, starts_with};
ghost use Rattle.gf_text.specs.Tokens.{is_space, is_digit, is_name_byte, is_number, decimal_value, spaces, lexemes, lexeme, longest, word_more, ring_more};
ghost use Rattle.gf_text.specs.Tokens.{begins_token};
ghost use Rattle.gf_text.specs.Fronts.{AreFound, IsFound};
ghost use Rattle.gf_text.specs.Given.{IsNumberRead};
ghost use Rattle.gf_text.specs.declared.TheConstants.{MOST_VARIABLES};

use crate::MOST_VARIABLES;
use crate::fronts::{Found, NOWHERE};
use crate::names::{Name, Ring};

/// A token: its text, and the place of its first byte in the source.
#[derive(Clone, Copy)]
pub struct Token<'a> {
    pub text: &'a [u8],
    pub at: u64,
}

/// Space, tab, carriage return or line feed.
fn is_space(b: u8) -> bool
    ensures { result ≡ is_space b }
{
    b == b' ' || b == b'\t' || b == b'\r' || b == b'\n'
}

/// A letter, a digit or `_`.
pub(crate) fn is_name_byte(b: u8) -> bool
    ensures { result ≡ is_name_byte b }
{
    b.is_ascii_alphabetic() || b.is_ascii_digit() || b == b'_'
}

/// How many bytes of white space a text begins with.
pub(crate) fn spaces(text: &[u8]) -> usize
    ensures { result ≡ length (spaces text.now) }
{
    text.iter().take_while(|b| is_space(**b)).count()
}

/// How many digits a text begins with.
fn digits(text: &[u8]) -> usize
    ensures { result ≡ length (take_while is_digit text.now) }
{
    text.iter().take_while(|b| b.is_ascii_digit()).count()
}

/// How many letters, digits and `_` a text begins with.
fn name_bytes(text: &[u8]) -> usize
    ensures { result ≡ length (take_while is_name_byte text.now) }
{
    text.iter().take_while(|b| is_name_byte(**b)).count()
}

/// How many bytes of the token at the front of a text follow its first byte, where names are of any length.
fn word_more(text: &[u8]) -> usize
    ensures { result ≡ word_more text.now }
{
    let [first, rest @ ..] = text else {
        return 0;
    };
    if first.is_ascii_digit() {
        return digits(rest);
    }
    if first.is_ascii_alphabetic() {
        return name_bytes(rest);
    }
    0
}

/// The length of the longest of these names that stands in the source at this place, 0 where none does.
fn longest(names: &[Name], source: &[u8], at: usize, found: &mut [Found]) -> usize
    requires within { at ≤ length source.now }
    requires room { length names.now ≤ length found.old }
    requires known { AreFound names.now source.now found.old }
    ensures value { result ≡ longest names.now (drop at source.now) }
    ensures known { AreFound names.now source.now found.new }
{
    let mut best = 0;
    for (i, name) in names.iter().enumerate() {
        best = longer(best, name, source, at, &mut found[i]);
    }
    best
}

/// The length of the name where it stands in the source at this place and is greater than `best`, else `best`.
fn longer(best: usize, name: &Name, source: &[u8], at: usize, found: &mut Found) -> usize
    requires within { at ≤ length source.now }
    requires known { IsFound name.now source.now found.old }
    ensures value { result ≡ max best (if starts_with nat_eq (drop at source.now) name.now then length name.now else 0) }
    ensures known { IsFound name.now source.now found.new }
{
    let size = name.as_slice().len();
    if size > best && name.stands_at(source, at, found) {
        size
    } else {
        best
    }
}

/// How many bytes of the token that stands in the source at this place follow its first byte, where names are those of a ring.
fn ring_more(ring: &Ring, source: &[u8], at: usize, found: &mut [Found]) -> usize
    requires within { at ≤ length source.now }
    requires room { MOST_VARIABLES ≤ length found.old }
    requires known { AreFound ring.now source.now found.old }
    ensures value { result ≡ ring_more ring.now (drop at source.now) }
    ensures known { AreFound ring.now source.now found.new }
{
    let [first, rest @ ..] = &source[at..] else {
        return 0;
    };
    if first.is_ascii_digit() {
        return digits(rest);
    }
    if first.is_ascii_alphabetic() {
        return longest(ring.names(), source, at, found).saturating_sub(1);
    }
    0
}

/// The place of the first byte of the first token at or behind `at`, and the place behind that token; none where only white space follows. A name is
/// of any length: a letter and all letters, digits and `_` behind it.
pub fn word_from(source: &[u8], at: usize) -> Option<(usize, usize)>
    requires { at ≤ length source.now }
    ensures token { MatchOption result (lexemes word_more source.now at ≡ []) (λ t. lexemes word_more source.now at ≡ lexeme source.now t.0 t.1 ∷
        lexemes word_more source.now t.1) }
    ensures within { IfSome result (λ t. (at ≤ t.0) × (t.0 < t.1) × (t.1 ≤ length source.now)) }
{
    let start = at + spaces(&source[at..]);
    if start == source.len() {
        return None;
    }
    let more = word_more(&source[start..]);
    Some((start, start + 1 + more))
}

/// The place of the first byte of the first token at or behind `at`, and the place behind that token; none where only white space follows. A name is
/// the longest one of the ring that stands there; a letter at which none stands is a token by itself. What was found of the names before tells of this
/// place too.
pub(crate) fn ring_token_from(
    ring: &Ring,
    source: &[u8],
    at: usize,
    found: &mut [Found],
) -> Option<(usize, usize)>
    requires within { at ≤ length source.now }
    requires room { MOST_VARIABLES ≤ length found.old }
    requires known { AreFound ring.now source.now found.old }
    ensures token { MatchOption result (lexemes (ring_more ring.now) source.now at ≡ []) (λ t. lexemes (ring_more ring.now) source.now at ≡
        lexeme source.now t.0 t.1 ∷ lexemes (ring_more ring.now) source.now t.1) }
    ensures within { IfSome result (λ t. (at ≤ t.0) × (t.0 < t.1) × (t.1 ≤ length source.now)) }
    ensures known { AreFound ring.now source.now found.new }
{
    let start = at + spaces(&source[at..]);
    if start == source.len() {
        return None;
    }
    let more = ring_more(ring, source, start, found);
    Some((start, start + 1 + more))
}

/// What `ring_token_from` gives where nothing was found of the names before.
pub(crate) fn first_token_from(ring: &Ring, source: &[u8], at: usize) -> Option<(usize, usize)>
    requires { at ≤ length source.now }
    ensures token { MatchOption result (lexemes (ring_more ring.now) source.now at ≡ []) (λ t. lexemes (ring_more ring.now) source.now at ≡
        lexeme source.now t.0 t.1 ∷ lexemes (ring_more ring.now) source.now t.1) }
    ensures within { IfSome result (λ t. (at ≤ t.0) × (t.0 < t.1) × (t.1 ≤ length source.now)) }
{
    ring_token_from(ring, source, at, &mut [NOWHERE; MOST_VARIABLES])
}

/// Whether a token is this mark.
pub(crate) fn is_mark(t: &[u8], mark: u8) -> bool
    ensures { result ≡ bytes_eq t.now (mark ∷ []) }
{
    t == [mark].as_slice()
}

/// What a token is as a number with a limit.
#[derive(Clone, Copy, Debug, PartialEq, Eq)]
pub enum Number {
    /// No number.
    None,
    /// A number past the limit.
    Wide,
    /// This number.
    Within(u128),
}

/// Whether all bytes are digits.
fn are_digits(bytes: &[u8]) -> bool
    ensures { result ≡ list_all is_digit bytes.now }
{
    bytes.iter().all(|b| b.is_ascii_digit())
}

/// Whether a token is a number: digits, at least one.
fn is_number(t: &[u8]) -> bool
    ensures { result ≡ is_number t.now }
{
    let [first, rest @ ..] = t else {
        return false;
    };
    first.is_ascii_digit() && are_digits(rest)
}

/// What a token is as a number up to `most`, which is at most `2^127 - 1`.
pub fn number_of(t: &[u8], most: u128) -> Number
    requires { most ≤ 2 ^ 127 - 1 }
    ensures { IsNumberRead result t.now most }
{
    if !is_number(t) {
        return Number::None;
    }
    match value_within(t, most) {
        Some(n) => Number::Within(n),
        None => Number::Wide,
    }
}

/// The number that decimal digits stand for, where it is at most `most`.
fn value_within(digits: &[u8], most: u128) -> Option<u128>
    requires digits { is_number digits.now ≡ true }
    requires most { most ≤ 2 ^ 127 - 1 }
    ensures { MatchOption result (most < decimal_value digits.now) (λ n. (n ≡ decimal_value digits.now) × (n ≤ most)) }
{
    let tenth = most / 10;
    let mut n = 0u128;
    for d in digits {
        if n > tenth {
            return None;
        }
        n = 10 * n + u128::from(d - b'0');
        if n > most {
            return None;
        }
    }
    Some(n)
}

/// Whether a text that begins with no white space begins with a token: a number, a name or a mark.
pub(crate) fn begins_token(text: &[u8]) -> bool
    ensures { result ≡ begins_token text.now }
{
    let [first, ..] = text else {
        return false;
    };
    first.is_ascii_alphanumeric() || b"[]{}(),+-*/^".contains(first)
}
