//! What `_bases` writes for its texts, basis by basis.
ghost use Rattle.std.specs.Prelude.{◌≡◌, ◌⊎◌, ◌≤◌, ◌∷◌, ◌++◌, [], true, false, None, ℕ, ℤ, List, Option, length, IfOk, IfErr, OnOk, All, is_some};
ghost use Rattle.std.specs.Option.{option_copied};
ghost use Rattle.gf_poly.specs.Polynomial.{HasVariables};
ghost use Rattle.gf_poly.specs.Marking.{MarkedPolynomials, polys};
ghost use Rattle.gf_text.specs.Sets.{AreIn};
ghost use Rattle.gf_text.specs.declared.error.TextError.{TextError};
ghost use Rattle.gf_reduced.specs.Markings.{IsMarkedGroebnerBasis};
ghost use Rattle.gf_items.specs.Checks.{FirstFails};
ghost use Rattle.gf_items.specs.Refusals.{of_text};
ghost use Rattle.gf_frame.specs.Loading.{Origin, AreLoaded, AreUnloaded, HaveInput, HaveFile};
ghost use Rattle.gf_frame.specs.Origins.{texts_of};
ghost use Rattle.gf_frame.specs.Seen.{seen, output_seen};
ghost use Rattle.gf_frame.specs.Runs.{IsDoneOn, IsStoppedOn};
ghost use Rattle.gfan_common.specs.Forms.{generators_of};
ghost use Rattle.gfan_common.specs.Refused.{IsUnnamed, IsOfSource};
ghost use Rattle.gfan_common.specs.ToolForms.{for_each};
ghost use Rattle.gf_lists_theory.specs.Starts.{StartsIn};
ghost use Rattle.gfan_lists.specs.BasesWriting.{GoesOnBehind};
ghost use Rattle.gfan_lists.specs.Within.{IsNoRegion};
ghost use Rattle.gfan_lists.specs.After.{reading_given, IsBasisGiven, IsUnrooted, IsRegionCut, IsOfCutFile, IsCutFileRefused, IsStartRefused, IsBasisTaken};
ghost use Rattle.gfan_lists.specs.Ways.{ways_by, ways_of, list_options};
ghost use Rattle.gfan_lists.specs.ListCommand.{AreSameNames, IsFront, list_sources, list_texts, IsUnstarted, list_command, bases_command, IsUnbegun};
ghost use Rattle.gfan_lists.specs.Asked.{ways_asked, texts_asked, is_from_basis, given_by, names_asked, generators_asked, IsAskedInRing};
ghost use Rattle.gfan_lists.specs.Asked.{behind_by, IsOfBasisFile, IsBasisFileRefused, IsFoundInRing, ways_read};

use crate::after::{check_listed, check_ring, taken_in, waves_after};
use crate::bases::{self, ListOptions, write_waves};
use crate::{given_basis, within};
use gf_cone::Region;
use gf_frame::{LoadFrom, load_all};
use gf_front::{BasesOptions, Refusal};
use gf_items::{RingAndMarked, RingAndSet, ring_and_marked, ring_and_set, vectors};
use gf_outside::{Files, Sink, Source};
use gf_poly::{MarkedSet, Poly};
use gf_subtree::Waves;
use gf_text::{Ring, Written};
use gf_vec::IntVec;
use gf_waves::Gate;
use gfan_common::marked_sets;
use gfan_common::refused::Refused;
use gfan_common::written_sets::polynomials;
use std::alloc::{AllocError, Global};
use std::thread::Threads;

// ---- the job

/// The texts of the sources of a list, each read to its end before the next: that of the file of its region, if one is named, that of the file of the
/// basis that it continues after, if one is named, and then that of the input.
///
/// # Errors
///
/// - `OpenFault`: a file can't be opened. `ReadFault`: a read fails.
/// - `InputTooLong`: a source has more than 67,108,864 bytes.
/// - `Memory`: memory runs out.
pub fn load<S: Source, F: Files>(
    alloc: Global,
    given: &BasesOptions,
    input: &mut S,
    files: &mut F,
) -> Result<Vec<Vec<u8>>, Refusal>
    ensures loaded { IfOk result (λ texts. AreLoaded (list_sources given.now.within given.now.after)
        (seen (S.left input.old) (S.given input.old) (S.faults input.old) (F.bytes files.old) (F.left files.old)
        (F.given files.old) (F.unopened files.old) (F.faults files.old))
        (seen (S.left input.new) (S.given input.new) (S.faults input.new) (F.bytes files.new) (F.left files.new)
        (F.given files.new) (F.unopened files.new) (F.faults files.new))
        (texts_of texts.items)) }
    ensures unloaded { IfErr result (AreUnloaded (list_sources given.now.within given.now.after)
        (seen (S.left input.old) (S.given input.old) (S.faults input.old) (F.bytes files.old) (F.left files.old)
        (F.given files.old) (F.unopened files.old) (F.faults files.old))
        (seen (S.left input.new) (S.given input.new) (S.faults input.new) (F.bytes files.new) (F.left files.new)
        (F.given files.new) (F.unopened files.new) (F.faults files.new))) }

    // What the list doesn't read is as before.
    ensures input_kept { (HaveInput (list_sources given.now.within given.now.after) → ⊥) → input.new ≡ input.old }
    ensures files_kept { (HaveFile (list_sources given.now.within given.now.after) → ⊥) → files.new ≡ files.old }
{
    match &given.within {
        None => match &given.after {
            None => load_all(alloc, &[LoadFrom::Input], input, files),
            Some(basis) => {
                let two = [LoadFrom::File(basis.as_str()), LoadFrom::Input];
                load_all(alloc, &two, input, files)
            }
        },
        Some(region) => match &given.after {
            None => {
                let two = [LoadFrom::File(region.as_str()), LoadFrom::Input];
                load_all(alloc, &two, input, files)
            }
            Some(basis) => {
                let three = [
                    LoadFrom::File(region.as_str()),
                    LoadFrom::File(basis.as_str()),
                    LoadFrom::Input,
                ];
                load_all(alloc, &three, input, files)
            }
        },
    }
}

/// What a list is asked for, and the texts that it is read from.
#[derive(Clone, Copy)]
pub struct ListJob<'t> {
    /// The text of the vectors that cut out the region; without it the region consists of all positive weights.
    pub region: Option<&'t [u8]>,
    /// The text of the basis that the list continues after; without it the list starts at its first basis.
    pub after: Option<&'t [u8]>,
    /// The text of the input.
    pub input: &'t [u8],
    /// The input has a marked Gröbner basis in place of generators.
    pub from_basis: bool,
    /// The options of the list.
    pub options: ListOptions,
    /// The number of workers.
    pub workers: u32,
}

/// The texts, in the order of their sources, as that of a region, that of a basis and that of the input.
fn in_order<'t>(
    texts: &'t [Vec<u8>],
    in_region: bool,
    after_basis: bool,
) -> (Option<&'t [u8]>, Option<&'t [u8]>, &'t [u8])
    requires { (within : Option (List ℕ)) × (after : Option (List ℕ)) × (is_some within ≡ in_region) × (is_some after ≡ after_basis)
        × (length texts.now ≡ length (list_sources within after)) }
    ensures region { is_some (option_copied result.0) ≡ in_region }
    ensures after { is_some (option_copied result.1) ≡ after_basis }
    ensures texts { list_texts (option_copied result.0) (option_copied result.1) result.2.now ≡ texts_of texts.now }
{
    if in_region {
        if after_basis {
            (Some(&texts[0]), Some(&texts[1]), &texts[2])
        } else {
            (Some(&texts[0]), None, &texts[1])
        }
    } else if after_basis {
        (None, Some(&texts[0]), &texts[1])
    } else {
        (None, None, &texts[0])
    }
}

impl<'t> ListJob<'t> {
    /// The job that the options request, on the texts of its sources: that of the region, if a file of one is named, that of the basis, if the list
    /// continues after one, and that of the input.
    pub fn on(texts: &'t [Vec<u8>], given: &BasesOptions) -> ListJob<'t>
        requires { length texts.now ≡ length (bases_command given.now).reads }
        ensures ways { ways_asked result ≡ ways_of given.now }
        ensures texts { texts_asked result ≡ texts_of texts.now }
        ensures options { result.options ≡ list_options given.now }
        ensures workers { result.workers ≡ given.now.workers }
    {
        let (region, after, input) = in_order(texts, given.within.is_some(), given.after.is_some());
        let options = ListOptions {
            limit: given.limit,
            pairs: given.pairs,
            certified: given.certificates,
        };
        ListJob {
            region,
            after,
            input,
            from_basis: given.from_basis,
            options,
            workers: given.workers,
        }
    }
}

// ---- what its texts say

/// What the input says.
#[derive(Drop)]
pub(crate) enum Asked {
    /// A ring and generators of an ideal.
    Generators { ring: Ring, set: Vec<Written> },
    /// A ring and a marked Gröbner basis of an ideal.
    Basis { ring: Ring, set: MarkedSet },
}

impl Asked {
    /// The ring.
    fn ring(&self) -> &Ring
        ensures { result.now ≡ names_asked self.now }
    {
        match self {
            Asked::Generators { ring, .. } => ring,
            Asked::Basis { ring, .. } => ring,
        }
    }

    /// The ring alone.
    fn into_ring(self) -> Ring
        ensures { result ≡ names_asked self }
    {
        match self {
            Asked::Generators { ring, .. } => ring,
            Asked::Basis { ring, .. } => ring,
        }
    }

    /// The polynomials that generate the ideal.
    fn polynomials(&self, alloc: Global) -> Result<Vec<Poly>, AllocError>
        requires { IsAskedInRing self.now }
        ensures value { IfOk result (λ fs. fs.items ≡ generators_asked self.now) }
        ensures variables { IfOk result (λ fs. All (HasVariables (length (names_asked self.now))) fs.items) }
    {
        match self {
            Asked::Generators { set, .. } => polynomials(alloc, set),
            Asked::Basis { set, .. } => marked_sets::polynomials(alloc, set),
        }
    }
}

/// The vectors of the file of a region; none if no file is named.
fn rows_of(alloc: Global, file: Option<&[u8]>) -> Result<Vec<IntVec>, Refused>
    ensures ok { IfOk result (λ rows. IsOfCutFile file.entry rows.items) }
    ensures err { IfErr result (λ e. IsCutFileRefused file.entry e.refusal) }
    ensures told { IfErr result IsUnnamed }
{
    match file {
        Some(file) => {
            let rows = vectors(alloc, file)?;
            Ok(rows)
        }
        None => Ok(Vec::new(alloc)),
    }
}

/// The ring and the marked set of the file of a basis, if one is named.
fn found_in(alloc: Global, file: Option<&[u8]>) -> Result<Option<RingAndMarked>, Refused>
    ensures ok { IfOk result (IsOfBasisFile file.entry) }
    ensures variables { IfOk result IsFoundInRing }
    ensures err { IfErr result (λ e. IsBasisFileRefused file.entry e.refusal) }
    ensures told { IfErr result IsUnnamed }
{
    match file {
        Some(file) => {
            let found = ring_and_marked(alloc, file)?;
            Ok(Some(found))
        }
        None => Ok(None),
    }
}

/// What the input says.
fn asked_in(alloc: Global, input: &[u8], from_basis: bool) -> Result<Asked, Refused>
    ensures way { IfOk result (λ asked. is_from_basis asked ≡ from_basis) }
    ensures ok { IfOk result (λ asked. (reading_given (is_from_basis asked)).IsRead (input.now ∷ []) (given_by asked)) }
    ensures inside { IfOk result IsAskedInRing }
    ensures err { IfErr result (λ e. (t : TextError) × (reading_given from_basis).IsRefused (input.now ∷ []) t × (e.refusal ≡ of_text t)) }
    ensures told { IfErr result IsUnnamed }
{
    if from_basis {
        let RingAndMarked { ring, set } = ring_and_marked(alloc, input)?;
        Ok(Asked::Basis { ring, set })
    } else {
        let RingAndSet { ring, set, .. } = ring_and_set(alloc, input, false)?;
        Ok(Asked::Generators { ring, set })
    }
}

// ---- the region

/// The region that the vectors cut out, or the one of all positive weights.
fn region_for(alloc: Global, n: u32, rows: &[IntVec], in_region: bool) -> Result<Region, Refusal>
    ensures ok { IfOk result (IsRegionCut in_region n rows.now) }
    ensures err { IfErr result (λ r. ((in_region ≡ true) × (FirstFails (for_each n rows.now) r ⊎ IsNoRegion n rows.now r)) ⊎ (r ≡ Refusal.Memory)) }
{
    if in_region {
        return within::region_by(alloc, n, rows);
    }
    let region = Region::positive(alloc, n)?;
    Ok(region)
}

/// The region, if the file of a basis, where one is named, has the names of the ring of the input.
fn region_of(
    alloc: Global,
    found: &Option<RingAndMarked>,
    ring: &Ring,
    rows: &[IntVec],
    in_region: bool,
) -> Result<Region, Refusal>
    ensures region { IfOk result (IsRegionCut in_region (length ring.now) rows.now) }
    ensures names { IfOk result (λ _. AreSameNames (is_some found.now) (behind_by found.now) ring.now) }
    ensures err { IfErr result (IsUnbegun in_region (is_some found.now) (length ring.now) rows.now (behind_by found.now) ring.now) }
{
    let region = region_for(alloc, ring.len(), rows, in_region)?;
    if let Some(found) = found {
        check_ring(&found.ring, ring)?;
    }
    Ok(region)
}

// ---- the first basis

/// The first basis of the list of the ideal of a set, in the region of a file or for all positive weights.
fn root_of_set(
    alloc: Global,
    ring: &Ring,
    set: &[Written],
    region: &Region,
    in_region: bool,
    pairs: u64,
) -> Result<MarkedSet, Refusal>
    requires set { AreIn (length ring.now) set.now }
    requires region { (rows : List (List ℤ)) × IsRegionCut in_region (length ring.now) rows region.now }
    ensures ok { IfOk result (StartsIn (length ring.now) region.now (generators_of set.now)) }
    ensures err { IfErr result (IsUnrooted false in_region (ring.now, (set.now, None)) region.now pairs) }
{
    let root = if in_region {
        within::root_of(alloc, ring, set, region, pairs)
    } else {
        bases::first_basis(alloc, ring, set, pairs)
    };
    match root {
        Ok(root) => Ok(root),
        Err(refused) => Err(refused.refusal),
    }
}

/// The first basis of the list of the ideal of a marked Gröbner basis, in the region of a file or for all positive weights.
fn root_of_basis(
    alloc: Global,
    set: &MarkedSet,
    region: &Region,
    in_region: bool,
    pairs: u64,
) -> Result<MarkedSet, Refusal>
    requires { (rows : List (List ℤ)) × IsRegionCut in_region set.now.variables rows region.now }
    ensures basis { IfOk result (λ _. IsMarkedGroebnerBasis set.now.variables set.now.items) }
    ensures ok { IfOk result (StartsIn set.now.variables region.now (polys set.now.items)) }
    ensures err { IfErr result (λ r. (ring : List (List ℕ)) → IsUnrooted true in_region (ring, set.now) region.now pairs r) }
{
    if in_region {
        within::given_root_of(alloc, set, region, pairs)
    } else {
        given_basis::root_of(alloc, set, pairs)
    }
}

/// The first basis of the list.
fn root_of(
    alloc: Global,
    asked: &Asked,
    region: &Region,
    in_region: bool,
    pairs: u64,
) -> Result<MarkedSet, Refusal>
    requires inside { IsAskedInRing asked.now }
    requires region { (rows : List (List ℤ)) × IsRegionCut in_region (length (names_asked asked.now)) rows region.now }
    ensures basis { IfOk result (λ _. IsBasisGiven (is_from_basis asked.now) (given_by asked.now)) }
    ensures ok { IfOk result (StartsIn (length (names_asked asked.now)) region.now (generators_asked asked.now)) }
    ensures err { IfErr result (IsUnrooted (is_from_basis asked.now) in_region (given_by asked.now) region.now pairs) }
{
    match asked {
        Asked::Generators { ring, set } => root_of_set(alloc, ring, set, region, in_region, pairs),
        Asked::Basis { set, .. } => root_of_basis(alloc, set, region, in_region, pairs),
    }
}

// ---- the list

/// The bases of the list, from the first one on.
fn start_first<'g, G: Gate>(
    alloc: Global,
    asked: &Asked,
    region: &Region,
    in_region: bool,
    options: ListOptions,
    workers: u32,
    gate: &'g G,
) -> Result<Waves<'g, G>, Refusal>
    requires inside { IsAskedInRing asked.now }
    requires region { (rows : List (List ℤ)) × IsRegionCut in_region (length (names_asked asked.now)) rows region.now }
    requires some { 1 ≤ workers }
    requires most { workers ≤ 64 }
    ensures basis { IfOk result (λ _. IsBasisGiven (is_from_basis asked.now) (given_by asked.now)) }
    ensures ok { IfOk result (GoesOnBehind [] (length (names_asked asked.now)) region.now (generators_asked asked.now) options.pairs) }
    ensures err { IfErr result (λ r. IsUnrooted (is_from_basis asked.now) in_region (given_by asked.now) region.now options.pairs r ⊎ (r ≡ Refusal.Memory)) }
{
    let root = root_of(alloc, asked, region, in_region, options.pairs)?;
    let waves = Waves::new(alloc, root, region, workers, options.pairs, gate)?;
    Ok(waves)
}

/// The bases of the list that follow the basis of a file.
fn start_after<'g, G: Gate>(
    alloc: Global,
    asked: &Asked,
    marked: &MarkedSet,
    region: &Region,
    in_region: bool,
    options: ListOptions,
    workers: u32,
    gate: &'g G,
) -> Result<Waves<'g, G>, Refusal>
    requires inside { IsAskedInRing asked.now }
    requires same { marked.now.variables ≡ length (names_asked asked.now) }
    requires region { (rows : List (List ℤ)) × IsRegionCut in_region (length (names_asked asked.now)) rows region.now }
    requires some { 1 ≤ workers }
    requires most { workers ≤ 64 }
    ensures basis { IfOk result (λ _. IsBasisGiven (is_from_basis asked.now) (given_by asked.now)) }
    ensures ok { IfOk result (λ waves. (b : MarkedPolynomials) × (front : List MarkedPolynomials) × IsBasisTaken region.now marked.now b
        × GoesOnBehind (front ++ b ∷ []) (length (names_asked asked.now)) region.now (generators_asked asked.now) options.pairs waves) }
    ensures err { IfErr result (λ r. IsStartRefused (ways_by (is_from_basis asked.now) in_region true) options.pairs region.now (given_by asked.now)
        marked.now r
        ⊎ (r ≡ Refusal.Memory)) }
{
    let basis = taken_in(alloc, marked, region)?;
    let root = root_of(alloc, asked, region, in_region, options.pairs)?;
    let generators = asked.polynomials(alloc)?;
    check_listed(alloc, marked, &generators, &root, &basis)?;
    waves_after(alloc, basis, region, workers, options.pairs, gate)
}

/// The bases of the list: all of them, or those that follow the basis of a file.
fn start<'g, G: Gate>(
    alloc: Global,
    asked: &Asked,
    found: &Option<RingAndMarked>,
    region: &Region,
    in_region: bool,
    options: ListOptions,
    workers: u32,
    gate: &'g G,
) -> Result<Waves<'g, G>, Refusal>
    requires inside { IsAskedInRing asked.now }
    requires found { IsFoundInRing found.now }
    requires names { AreSameNames (is_some found.now) (behind_by found.now) (names_asked asked.now) }
    requires region { (rows : List (List ℤ)) × IsRegionCut in_region (length (names_asked asked.now)) rows region.now }
    requires some { 1 ≤ workers }
    requires most { workers ≤ 64 }
    ensures basis { IfOk result (λ _. IsBasisGiven (is_from_basis asked.now) (given_by asked.now)) }
    ensures ok { IfOk result (λ waves. (front : List MarkedPolynomials) × IsFront (is_some found.now) (behind_by found.now) region.now front
        × GoesOnBehind front (length (names_asked asked.now)) region.now (generators_asked asked.now) options.pairs waves) }
    ensures err { IfErr result (λ r. IsUnstarted (ways_read asked.now in_region found.now) options.pairs region.now (given_by asked.now) (behind_by found.now)
        r ⊎ (r ≡ Refusal.Memory)) }
{
    match found {
        None => start_first(alloc, asked, region, in_region, options, workers, gate),
        Some(found) => start_after(
            alloc, asked, &found.set, region, in_region, options, workers, gate,
        ),
    }
}

// ---- all of it

/// Writes the ring of the input in a line, and then marked reduced Gröbner bases of the ideal of its set, each as soon as it is found, in the order of
/// their paths: the first with the ring, and each other one after a line end, a comma and a line end; last the brace that ends the list. With certificates
/// each basis is followed by its printed weight and by the facets that a flip may cross, each with its printed witness. The list is computed by the number
/// of workers of the job, and its text is the same for every number; before each of their jobs the gate is called.
///
/// The set has generators of the ideal or, with `from_basis`, is a marked Gröbner basis for its marking, which need not be reduced.
///
/// Without a text of a region all bases of the ideal are written, and the list starts at the basis by degree and then lex. With one, those are written that
/// some weight of the region gives: the region consists of the positive vectors on which each vector of the text is positive, and its root is the sum of
/// the primitive vectors along the extreme rays of its closure. The list then starts at the basis for this root, ties broken by lex. The parent of a basis
/// is across the facet with the least normal of those that a flip may cross in the region and that are negative at the root.
///
/// With a text of a basis only the bases that follow it in this list are written; if none does, the list is empty. This basis need not be monic, and its
/// polynomials may be in any order. It is made monic and arranged. Then the parents from it up to the first basis are visited, and the list continues
/// after it. The limit counts the bases that are written here.
///
/// # Errors
///
/// - `Syntax`, `TooWide`, `UnknownName`, `TooManyVariables`, `ZeroPolynomial` if and only if the text of the region isn't that of a list of vectors, or that
///   of the basis isn't that of a ring and of a marked set in it, or then the input isn't that of a ring and of a set in it: at the first offending place.
/// - `Dimensions` if and only if a vector hasn't an entry for each variable, `EmptyRegion` if no positive vector is positive on each
///   vector, with multipliers that show it, and `WideRoot` for the first entry of the root of the region that is greater than `2^63 - 1`, unless an
///   operation before that leaves its range.
/// - `OtherRing` if and only if the names of the rings of the basis and of the input differ: the first index at which they do, or the length of the shorter
///   list.
/// - `Inconsistent`, `NotReduced`, `NotBasis`, with the number 0 for the set, if and only if no weight of the region gives the marking of
///   the basis of the file, or it isn't reduced, or it isn't a Gröbner basis for its marking; and then, with `from_basis`, if no positive weight gives the
///   marking of the input, or the S-polynomial of two of its members made monic has a nonzero normal form: the first such pair, with the normal form;
///   unless numbers of these checks don't fit.
/// - `NotListed`, once the first basis is found, if and only if a polynomial of the file has a nonzero remainder by it (side 0), or a
///   generator has one by the basis of the file (side 1): the first one, unless numbers of the reductions don't fit.
/// - `Overflow`, `ExponentOverflow`, `ConeOverflow`: the operands of a sum of the texts don't fit, or those of an operation of finding the region, of these
///   checks and reductions, of the first basis, of the way up from the basis of the file, or of the search; with certificates also of finding the rays of
///   a basis.
/// - `WideVector`: a sum of entries of the rays of the region, or with certificates of those of a basis, leaves the range.
/// - `PairBudget`: a run of Buchberger's algorithm, or a flip, has more pairs to settle than the options say.
/// - `ListLimit`: as many bases as the limit were written, and there is a further one.
/// - `WriteFault`: a write failed; a prefix of the text of the list, or of its part up to the limit, is written then.
/// - `Memory`: memory runs out.
///
/// With refusals of numbers, and for memory, the output ends after a basis, or nothing is written: nothing before the list is started.
pub fn perform<R: Threads + Sync, K: Sink, G: Gate>(
    rt: &R,
    alloc: Global,
    job: &ListJob,
    output: &mut K,
    gate: &G,
) -> Result<(), Refused>
    requires some { 1 ≤ job.now.workers }
    requires most { job.now.workers ≤ 64 }
    ensures done { OnOk result ((sources : List Origin) → IsDoneOn (list_command (ways_asked job.now) sources job.now.options) (texts_asked job.now)
        (output_seen (K.held output.old) (K.faults output.old)) (output_seen (K.held output.new) (K.faults output.new))) }
    ensures stopped { IfErr result (λ e. (sources : List Origin) → IsStoppedOn (list_command (ways_asked job.now) sources job.now.options)
        (texts_asked job.now) (output_seen (K.held output.old) (K.faults output.old)) (output_seen (K.held output.new) (K.faults output.new)) e.refusal) }
    ensures told { IfErr result (IsOfSource job.now.input.now) }
{
    let in_region = job.region.is_some();
    let rows = rows_of(alloc, job.region)?;
    let found = found_in(alloc, job.after)?;
    let asked = asked_in(alloc, job.input, job.from_basis)?;
    let region = region_of(alloc, &found, asked.ring(), &rows, in_region)?;
    let waves = match start(
        alloc,
        &asked,
        &found,
        &region,
        in_region,
        job.options,
        job.workers,
        gate,
    ) {
        Ok(waves) => waves,
        Err(refusal) => {
            return Err(Refused {
                refusal,
                ring: Some(asked.into_ring()),
            });
        }
    };
    write_waves(rt, alloc, asked.ring(), waves, &region, job.options, output)
}
