//! The numbers up to a limit as states.
ghost use Rattle.std.specs.Prelude.{◌≡◌, ◌≤◌, IfErr, IfOk};
ghost use Rattle.gf_number_sessions.specs.NumberMoves.{IsNumberStep, IsRefusedAtNumber, digit_of, number_rules, number_and_steps};

use gf_session::Moves;
use std::alloc::{AllocError, Global};

/// What a call is refused by.
#[derive(Clone, Copy, Debug, Drop, PartialEq)]
pub enum NumberError {
    /// Want of memory.
    Memory,
    /// The number at which the call was made was chosen to refuse.
    Chosen(u64),
}

/// The numbers from 0 to a limit. All calls refuse at the chosen one.
#[derive(Drop)]
pub struct NumberMoves {
    pub limit: u64,
    pub chosen: u64,
    pub alloc: Global,
}

/// The last decimal digit.
fn digit(number: u64) -> u8
    ensures { result ≡ digit_of number }
{
    b'0' + (number % 10) as u8
}

/// What is told of a number with so many steps behind it: their last digits.
fn text_of(alloc: Global, number: u64, behind: usize) -> Result<Vec<u8>, AllocError>
    ensures { IfOk result (λ text. text.items ≡ number_and_steps number behind) }
{
    let text = [digit(number), b' ', digit(behind as u64), b'\n'];
    text.to_vec(alloc)
}

impl NumberMoves {
    /// Refuses at the chosen number, and only there.
    fn ask(&self, number: u64) -> Result<(), NumberError>
        ensures { IfErr result (IsRefusedAtNumber self.now.chosen number) }
    {
        if number == self.chosen {
            return Err(NumberError::Chosen(number));
        }
        Ok(())
    }
}

impl Moves for NumberMoves {
    type State = u64;

    type Step = u64;

    type Error = NumberError;

    ghost is_state = { λ t p. p ≤ t.limit };

    ghost rules = { λ t. number_rules t.limit };

    ghost joins = { λ t. IsNumberStep t.limit };

    ghost refuses = { λ t. IsRefusedAtNumber t.chosen };

    fn cross(&self, here: &u64, number: u64) -> Result<Option<(u64, u64)>, NumberError> {
        self.ask(*here)?;
        if number >= self.limit - *here {
            return Ok(None);
        }
        let step = number + 1;
        Ok(Some((step, *here + step)))
    }

    fn back(&self, here: &u64, step: &u64) -> Result<u64, NumberError> {
        self.ask(*here)?;
        Ok(*here - *step)
    }

    fn tell(&self, here: &u64, behind: usize) -> Result<Vec<u8>, NumberError> {
        self.ask(*here)?;
        match text_of(self.alloc, *here, behind) {
            Ok(text) => Ok(text),
            Err(_) => Err(NumberError::Memory),
        }
    }
}
