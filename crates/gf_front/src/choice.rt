//! What an option of a command may be, and the option as clap has it.
ghost use Rattle.std.specs.Prelude.{◌≡◌, false};
ghost use Rattle.clap.specs.Words.{rule_of};
ghost use Rattle.gf_front.specs.Table.{numbers, rule};

use clap::builder::ValueParser;
use clap::{Arg, ArgAction, value_parser};
use std::alloc::Global;

/// What an option of a command may be, beside its name.
#[derive(Clone, Copy)]
pub(crate) enum Choice {
    /// It is there or not: a hyphen and this letter.
    Letter(char),
    /// It is there or not: two hyphens and its name.
    Flag,
    /// A number from `least` to `most`, behind two hyphens and the name of the option.
    Number { least: u32, most: u64 },
    /// The name of a file, behind two hyphens and the name of the option.
    File,
    /// The name of a file, behind two hyphens and the name of the option, without which the command isn't taken.
    NeededFile,
    /// A number from `least` to `most` that stands alone, without which the command isn't taken.
    BareNumber { least: u32, most: u64 },
    /// The name of a file that stands alone, without which the command isn't taken.
    BareFile,
}

/// The numbers from `least` to `most`, as clap takes them.
fn numbers<'a>(least: u32, most: u64) -> ValueParser<'a>
    ensures { result ≡ numbers least most }
{
    let last = most.min(9_223_372_036_854_775_807) as i64;
    value_parser!(u64).range(i64::from(least)..=last)
}

/// The option as clap has it.
pub(crate) fn option<'a>(alloc: Global, id: &'a str, choice: Choice) -> Arg<'a>
    ensures rule { rule_of result ≡ rule id.entry.now choice }
    ensures local { result.global ≡ false }
{
    let arg = Arg::new(alloc, id);
    match choice {
        Choice::Letter(letter) => arg.short(letter).action(ArgAction::SetTrue),
        Choice::Flag => arg.long(id).action(ArgAction::SetTrue),
        Choice::Number { least, most } => arg
            .long(id)
            .action(ArgAction::Set)
            .value_parser(numbers(least, most)),
        Choice::File => arg.long(id).action(ArgAction::Set),
        Choice::NeededFile => arg.long(id).action(ArgAction::Set).required(true),
        Choice::BareNumber { least, most } => arg
            .action(ArgAction::Set)
            .value_parser(numbers(least, most))
            .required(true),
        Choice::BareFile => arg.action(ArgAction::Set).required(true),
    }
}
