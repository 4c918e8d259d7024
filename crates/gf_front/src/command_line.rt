//! The words of a command line, and the job that they ask for.
//!
//! clap reads the words by the table; what it would say of a fault is never printed.
ghost use Rattle.std.specs.Prelude.{◌≡◌, IfOk, IsErrOf, map, string_bytes, codes, Some};
ghost use Rattle.clap.specs.Words.{found_of, rows_of, first_of, kind_of};
ghost use Rattle.gf_front.specs.Table.{most_workers, flag_of, number_of, number_where, text_of, buchberger, bases, leading_terms, groebner_cone, weight_vector};
ghost use Rattle.gf_front.specs.Table.{to_polyhedral_fan, tropical_intersection, fan_common_refinement, generated, saturation, interactive};
ghost use Rattle.gf_front.specs.Jobs.{renamed, HasMatch, IsJobOfMatch, IsMatched, IsJobOf, HasNumbersInRange, job_of};
ghost use Rattle.gf_front.specs.Options.{HoldsFlag, HoldsUnsigned, HoldsNumber, HoldsText, HoldChoices, IsCommand};

use crate::name::Name;
use crate::options::{
    BasesOptions, BuchbergerOptions, FanCommonRefinementOptions, GeneratedOptions,
    GroebnerConeOptions, InteractiveOptions, LeadingTermsOptions, SaturationOptions,
    ToPolyhedralFanOptions, TropicalIntersectionOptions, WeightVectorOptions,
};
use crate::plain::{PlainCommand, plain_command};
use crate::table::table;
use clap::ArgMatches;
use clap::error::ErrorKind;
use std::alloc::{AllocError, Global};

/// The budget of pairs of each run of Buchberger's algorithm, where the words don't say it.
const PAIRS: u64 = 100_000_000;

/// What the words ask for: a command with its options.
#[derive(Debug, Drop, PartialEq, Eq)]
pub enum Job {
    /// A command without options.
    Plain(PlainCommand),
    /// The reduced Gröbner basis of a set.
    Buchberger(BuchbergerOptions),
    /// All marked reduced Gröbner bases of a set's ideal.
    Bases(BasesOptions),
    /// The leading terms of a marked set, or of each of a list.
    LeadingTerms(LeadingTermsOptions),
    /// The facets of a cone and the equations that hold on it.
    GroebnerCone(GroebnerConeOptions),
    /// A weight of a marked reduced basis, or of each of a list.
    WeightVector(WeightVectorOptions),
    /// The fan of the cones of marked reduced bases.
    ToPolyhedralFan(ToPolyhedralFanOptions),
    /// The meet of the tropical hypersurfaces of a set, as a fan, or whether the set is a tropical basis.
    TropicalIntersection(TropicalIntersectionOptions),
    /// The fan of the meets of the cones of two fans.
    FanCommonRefinement(FanCommonRefinementOptions),
    /// A summary of the bases of the ideal that a number stands for.
    Generated(GeneratedOptions),
    /// The saturation of a set's ideal by the product of the variables.
    Saturation(SaturationOptions),
    /// A walk over the bases of an ideal, by lines that are answered in turn.
    Interactive(InteractiveOptions),
}

/// Why there is no job.
#[derive(Clone, Copy, Debug, PartialEq, Eq)]
pub enum WordsError {
    /// The table has no match for the words.
    Usage,
    Memory,
}

impl From<AllocError> for WordsError {
    ghost use Rattle.gf_front.specs.declared.command_line.WordsError.TheVariants as errors;

    ghost from_gives = { λ _ e. e ≡ errors.Memory };

    fn from(_: AllocError) -> WordsError {
        WordsError::Memory
    }
}

/// Whether an option without a value is there.
fn flag(found: &ArgMatches, id: &str) -> bool
    requires { HoldsFlag id.now (rows_of (found_of found.now)) }
    ensures { result ≡ flag_of id.now (rows_of (found_of found.now)) }
{
    found.get_flag(id)
}

/// The number of an option, and where it isn't there `otherwise`.
fn number(found: &ArgMatches, id: &str, otherwise: u64) -> u64
    requires { HoldsUnsigned id.now (rows_of (found_of found.now)) }
    ensures { result ≡ number_of id.now otherwise (rows_of (found_of found.now)) }
{
    found.get_one::<u64>(id).unwrap_or(otherwise)
}

/// The number of an option, where it is there.
fn number_where(found: &ArgMatches, id: &str) -> Option<u64>
    requires { HoldsUnsigned id.now (rows_of (found_of found.now)) }
    ensures { result ≡ number_where id.now (rows_of (found_of found.now)) }
{
    found.get_one::<u64>(id)
}

/// The number of workers, and one where it isn't there.
fn workers(found: &ArgMatches) -> u32
    requires { HoldsNumber (codes "workers") 1 most_workers (rows_of (found_of found.now)) }
    ensures { result ≡ number_of (codes "workers") 1 (rows_of (found_of found.now)) }
{
    let number = number(found, "workers", 1);
    number as u32
}

/// The text of an option.
fn text<'f>(found: &'f ArgMatches, id: &str) -> &'f str
    requires { HoldsText id.now (rows_of (found_of found.now)) }
    ensures { result.now ≡ text_of id.now (rows_of (found_of found.now)) }
{
    found.get_str(id).unwrap()
}

/// The name that an option has, where it is there.
fn name_where(alloc: Global, found: &ArgMatches, id: &str) -> Result<Option<Name>, AllocError>
    ensures { IfOk result (λ name. name ≡ first_of id.now (rows_of (found_of found.now))) }
{
    match found.get_str(id) {
        None => Ok(None),
        Some(text) => {
            let name = Name::new(alloc, text)?;
            Ok(Some(name))
        }
    }
}

/// The job of `_buchberger`.
fn buchberger(found: &ArgMatches) -> Job
    requires { HoldChoices buchberger.options (rows_of (found_of found.now)) }
    ensures { buchberger.job (rows_of (found_of found.now)) ≡ result }
{
    Job::Buchberger(BuchbergerOptions {
        weighted: flag(found, "w"),
        revlex: flag(found, "r"),
        pairs: number(found, "pairs", PAIRS),
    })
}

/// The job of `_bases`.
fn bases(alloc: Global, found: &ArgMatches) -> Result<Job, AllocError>
    requires { HoldChoices bases.options (rows_of (found_of found.now)) }
    ensures { IfOk result (λ job. bases.job (rows_of (found_of found.now)) ≡ job) }
{
    Ok(Job::Bases(BasesOptions {
        from_basis: flag(found, "g"),
        limit: number_where(found, "limit"),
        pairs: number(found, "pairs", PAIRS),
        certificates: flag(found, "certificates"),
        workers: workers(found),
        within: name_where(alloc, found, "within")?,
        after: name_where(alloc, found, "after")?,
    }))
}

/// The job of `_leadingterms`.
fn leading_terms(found: &ArgMatches) -> Job
    requires { HoldChoices leading_terms.options (rows_of (found_of found.now)) }
    ensures { leading_terms.job (rows_of (found_of found.now)) ≡ result }
{
    Job::LeadingTerms(LeadingTermsOptions {
        listed: flag(found, "m"),
    })
}

/// The job of `_groebnercone`.
fn groebner_cone(found: &ArgMatches) -> Job
    requires { HoldChoices groebner_cone.options (rows_of (found_of found.now)) }
    ensures { groebner_cone.job (rows_of (found_of found.now)) ≡ result }
{
    Job::GroebnerCone(GroebnerConeOptions {
        vector_input: flag(found, "vectorinput"),
        certificates: flag(found, "certificates"),
        restricted: flag(found, "restrict"),
        as_fan: flag(found, "asfan"),
    })
}

/// The job of `_weightvector`.
fn weight_vector(found: &ArgMatches) -> Job
    requires { HoldChoices weight_vector.options (rows_of (found_of found.now)) }
    ensures { weight_vector.job (rows_of (found_of found.now)) ≡ result }
{
    Job::WeightVector(WeightVectorOptions {
        listed: flag(found, "m"),
        echoed: flag(found, "e"),
    })
}

/// The job of `_topolyhedralfan`.
fn to_polyhedral_fan(found: &ArgMatches) -> Job
    requires { HoldChoices to_polyhedral_fan.options (rows_of (found_of found.now)) }
    ensures { to_polyhedral_fan.job (rows_of (found_of found.now)) ≡ result }
{
    Job::ToPolyhedralFan(ToPolyhedralFanOptions {
        restrict: flag(found, "restrict"),
    })
}

/// The job of `_tropicalintersection`.
fn tropical_intersection(found: &ArgMatches) -> Job
    requires { HoldChoices tropical_intersection.options (rows_of (found_of found.now)) }
    ensures { tropical_intersection.job (rows_of (found_of found.now)) ≡ result }
{
    Job::TropicalIntersection(TropicalIntersectionOptions {
        basis_test: flag(found, "basistest"),
    })
}

/// The job of `_fancommonrefinement`.
fn fan_common_refinement(alloc: Global, found: &ArgMatches) -> Result<Job, AllocError>
    requires { HoldChoices fan_common_refinement.options (rows_of (found_of found.now)) }
    ensures { IfOk result (λ job. fan_common_refinement.job (rows_of (found_of found.now)) ≡ job) }
{
    Ok(Job::FanCommonRefinement(FanCommonRefinementOptions {
        first: Name::new(alloc, text(found, "i1"))?,
        second: Name::new(alloc, text(found, "i2"))?,
    }))
}

/// The job of `_generated`.
fn generated(found: &ArgMatches) -> Job
    requires { HoldChoices generated.options (rows_of (found_of found.now)) }
    ensures { generated.job (rows_of (found_of found.now)) ≡ result }
{
    Job::Generated(GeneratedOptions {
        number: number(found, "number", 0),
        limit: number(found, "limit", 1000),
        pairs: number(found, "pairs", PAIRS),
        workers: workers(found),
    })
}

/// The job of `_saturation`.
fn saturation(found: &ArgMatches) -> Job
    requires { HoldChoices saturation.options (rows_of (found_of found.now)) }
    ensures { saturation.job (rows_of (found_of found.now)) ≡ result }
{
    Job::Saturation(SaturationOptions {
        pairs: number(found, "pairs", PAIRS),
    })
}

/// The job of `_interactive`.
fn interactive(alloc: Global, found: &ArgMatches) -> Result<Job, AllocError>
    requires { HoldChoices interactive.options (rows_of (found_of found.now)) }
    ensures { IfOk result (λ job. interactive.job (rows_of (found_of found.now)) ≡ job) }
{
    Ok(Job::Interactive(InteractiveOptions {
        file: Name::new(alloc, text(found, "file"))?,
        pairs: number(found, "pairs", PAIRS),
    }))
}

/// The job of a command with its options.
fn job_of(alloc: Global, name: &str, found: &ArgMatches) -> Result<Job, AllocError>
    requires { IsCommand (name.now, rows_of (found_of found.now)) }
    ensures { IfOk result (λ job. job_of (name.now, rows_of (found_of found.now)) ≡ Some job) }
{
    if let Some(command) = plain_command(name) {
        return Ok(Job::Plain(command));
    }
    Ok(match name {
        "_buchberger" => buchberger(found),
        "_bases" => bases(alloc, found)?,
        "_leadingterms" => leading_terms(found),
        "_groebnercone" => groebner_cone(found),
        "_weightvector" => weight_vector(found),
        "_topolyhedralfan" => to_polyhedral_fan(found),
        "_tropicalintersection" => tropical_intersection(found),
        "_fancommonrefinement" => fan_common_refinement(alloc, found)?,
        "_generated" => generated(found),
        "_saturation" => saturation(found),
        "_interactive" => interactive(alloc, found)?,
        _ => unreachable!(),
    })
}

/// Why clap refuses the words.
fn cause(error: &clap::Error) -> WordsError
    ensures usage { result ≡ WordsError.Usage → kind_of error.now ≡ ErrorKind.OutOfMemory → ⊥ }
    ensures memory { result ≡ WordsError.Memory → kind_of error.now ≡ ErrorKind.OutOfMemory }
{
    match error.kind() {
        ErrorKind::OutOfMemory => WordsError::Memory,
        _ => WordsError::Usage,
    }
}

/// The job of words that are renamed.
fn matched<'a>(alloc: Global, words: &'a [&'a str]) -> Result<Job, WordsError>
    ensures usage { IsErrOf result WordsError.Usage → HasMatch (map (λ w. w.now) words.entry.now) → ⊥ }
    ensures job { IfOk result (IsJobOfMatch (map (λ w. w.now) words.entry.now)) }
    ensures limits { IfOk result HasNumbersInRange }
{
    let matches = match table(alloc)?.try_get_matches_from(words) {
        Ok(matches) => matches,
        Err(error) => return Err(cause(&error)),
    };
    let Some((name, found)) = matches.subcommand() else {
        unreachable!()
    };
    Ok(job_of(alloc, name, found)?)
}

/// The word, or what it is read as.
fn renamed(word: &str) -> &str
    ensures { result.now ≡ renamed word.now }
{
    match word {
        "-i1" => "--i1",
        "-i2" => "--i2",
        other => other,
    }
}

/// The job that the words, those after the program's name, ask for.
///
/// # Errors
///
/// - `Usage` exactly where the table has no match for the words by clap's rules.
/// - `Memory` at any growth.
pub fn words(alloc: Global, all: &[String]) -> Result<Job, WordsError>
    // The table has no match.
    ensures usage { IsErrOf result WordsError.Usage → IsMatched (map string_bytes all.now) → ⊥ }

    // It has one, and the job is that of the match; its numbers are in their ranges.
    ensures job { IfOk result (IsJobOf (map string_bytes all.now)) }
    ensures limits { IfOk result HasNumbersInRange }
{
    let mut list: Vec<&str> = Vec::new(alloc);
    for word in all {
        if list.push(renamed(word.as_str())).is_err() {
            return Err(WordsError::Memory);
        }
    }
    matched(alloc, list.as_slice())
}
