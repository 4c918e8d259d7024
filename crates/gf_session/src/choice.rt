//! What a line asks for.
ghost use Rattle.std.specs.Prelude.{◌≡◌, ◌^◌, ◌-◌, min, IsTrue};
ghost use Rattle.std.specs.List.{list_all};
ghost use Rattle.gf_session.specs.Choices.{is_blank, is_digit, trim_start, trim_end, value_from, word_choice, choice_of, narrowed};

/// What a line of a session asks for.
#[derive(Clone, Copy, Debug, PartialEq, Eq)]
pub enum Choice {
    /// Nothing: the line is empty.
    Blank,
    /// To go on by this number, counted from 0. Numbers from `2^64 - 1` on are kept as that.
    Across(u64),
    /// To undo the latest step that isn't undone yet: `u`.
    Undo,
    /// The end of the session: `q`.
    Quit,
    /// It isn't understood.
    Unknown,
}

/// A space, a tab or a carriage return.
fn is_blank(byte: u8) -> bool
    ensures { result ≡ is_blank byte }
{
    byte == b' ' || byte == b'\t' || byte == b'\r'
}

/// Without the blanks at its beginning.
fn trim_start(line: &[u8]) -> &[u8]
    ensures { result.now ≡ trim_start line.now }
{
    let mut text = line;
    'blanks: while let [first, rest @ ..] = text {
        if !is_blank(*first) {
            return text;
        }
        text = rest;
    }
    text
}

/// Without the blanks at its end.
fn trim_end(line: &[u8]) -> &[u8]
    ensures { result.now ≡ trim_end line.now }
{
    let mut text = line;
    'blanks: while let [rest @ .., last] = text {
        if !is_blank(*last) {
            return text;
        }
        text = rest;
    }
    text
}

/// Decimal digits alone.
fn are_digits(word: &[u8]) -> bool
    ensures { result ≡ list_all is_digit word.now }
{
    word.iter().all(|byte| byte.is_ascii_digit())
}

/// The number of these decimal digits; from `2^64 - 1` on it is told as that.
fn number(digits: &[u8]) -> u64
    requires { IsTrue (list_all is_digit digits.now) }
    ensures { result ≡ min (value_from 0 digits.now) (2 ^ 64 - 1) }
{
    let mut number: u64 = 0;
    'digits: for digit in digits {
        number = number
            .saturating_mul(10)
            .saturating_add((*digit - b'0') as u64);
    }
    number
}

/// What a word asks for.
fn word_choice(word: &[u8]) -> Choice
    ensures { result ≡ narrowed (word_choice word.now) }
{
    if word.is_empty() {
        return Choice::Blank;
    }
    if are_digits(word) {
        return Choice::Across(number(word));
    }
    match word {
        [b'u'] => Choice::Undo,
        [b'q'] => Choice::Quit,
        _ => Choice::Unknown,
    }
}

/// What a line asks for, without its line feed: blanks at its ends fall away. A line of more than 80 bytes isn't understood, whatever they are.
pub(crate) fn choice_of(line: &[u8]) -> Choice
    ensures { result ≡ narrowed (choice_of line.now) }
{
    if line.len() > 80 {
        return Choice::Unknown;
    }
    word_choice(trim_end(trim_start(line)))
}
