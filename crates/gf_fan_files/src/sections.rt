//! The sections of a fan file, from left to right.
ghost use Rattle.std.specs.Prelude.{◌≡◌, ◌≤◌, ◌<◌, [], None, Some, Ok, List, ℤ, false, length, bytes_eq, IfOk, IfSome, MatchBool, MatchOption, MatchResult};
ghost use Rattle.gf_text.specs.Tokens.{lexeme};
ghost use Rattle.gf_fan_files.specs.Lines.{sections_from, content_from, with_name};
ghost use Rattle.gf_fan_files.specs.FanText.{Content, the_rows, passed, content_read, kind_in, is_second, told_version, version_kind, interiors_kind};
ghost use Rattle.gf_fan_files.specs.FanText.{fan_table, told_table, text_read, ambient_dim, rays_name, lineality_space, maximal_cones};
ghost use Rattle.gf_fan_files.specs.Found.{IsRefusedSo};
ghost use Rattle.gf_fan_files.specs.Contents.{IsSectionKept, Says, no_contents};

use crate::cones::{ConeList, MOST_NUMBER, cones_from};
use crate::error::{FanFileError, fault_of};
use crate::lines::{TextLine, line_from};
use crate::numbers::{number_from, version_number};
use crate::rows::{Vectors, rows_from};
use gf_text::{DifferentNames, Kind, MOST_VARIABLES};
use std::alloc::Global;

/// The version of the file, and what the sections that are looked at hold, as far as they are there.
#[derive(Drop)]
pub(crate) struct Contents {
    pub version: Option<u64>,
    pub ambient: Option<u64>,
    pub rays: Option<Vectors>,
    pub lineality: Option<Vectors>,
    pub cones: Option<ConeList>,
    pub interiors: Option<Vectors>,
}

impl Contents {
    /// Nothing is there, in this version.
    fn none(version: Option<u64>) -> Contents
        ensures { result ≡ no_contents version }
    {
        Contents {
            version,
            ambient: None,
            rays: None,
            lineality: None,
            cones: None,
            interiors: None,
        }
    }
}

/// Whether a version is 2.
pub(crate) fn is_second(version: Option<u64>) -> bool
    ensures { result ≡ is_second version }
{
    match version {
        Some(number) => number == 2,
        None => false,
    }
}

/// The first name of a section at a place or behind it: where it begins and ends, and where its content begins.
fn section_from(source: &[u8], at: usize) -> Option<(usize, usize, usize)>
    requires { at ≤ length source.now }
    ensures section { MatchOption result ((sections_from source.now at).all ≡ []) (λ s. (sections_from source.now at).all ≡
        (with_name (lexeme source.now s.0 s.1) (sections_from source.now s.2)).all) }
    ensures within { IfSome result (λ s. (s.0 < s.1) × (s.1 ≤ s.2) × (s.2 ≤ length source.now)) }
{
    let mut place = at;
    loop {
        match line_from(source, place) {
            TextLine::Ended => return None,
            TextLine::Name { start, end, next } => return Some((start, end, next)),
            TextLine::Tokens { next, .. } => place = next,
        }
    }
}

/// The version that a text tells: the number of `FILE_VERSION`, where it is the first section.
fn version_of(source: &[u8]) -> Option<u64>
    ensures { result ≡ told_version source.now }
{
    let Some((start, end, next)) = section_from(source, 0) else {
        return None;
    };
    if b"FILE_VERSION".as_slice() == &source[start..end] {
        return Some(version_number(source, next));
    }
    None
}

/// These contents, where the content of `FILE_VERSION`, which begins at `from`, is as it has to be.
fn with_version(source: &[u8], from: usize, contents: Contents) -> Result<Contents, FanFileError>
    requires { from ≤ length source.now }
    ensures { let read = content_read (length source.now) (version_kind contents.version) (content_from source.now from) in
        MatchResult result (λ kept. (kept ≡ contents) × ((c : Content) × (read ≡ Ok c))) (λ e. IsRefusedSo e read) }
{
    match contents.version {
        None => Ok(contents),
        Some(_) => {
            number_from(source, from, MOST_NUMBER as u64)?;
            Ok(contents)
        }
    }
}

/// These contents and, in the version 2, that of `MAXIMAL_INTERIORS`, which begins at `from`.
fn with_interiors(
    alloc: Global,
    source: &[u8],
    from: usize,
    contents: Contents,
) -> Result<Contents, FanFileError>
    requires { from ≤ length source.now }
    ensures { let read = content_read (length source.now) (interiors_kind (is_second contents.version)) (content_from source.now from) in
        MatchResult result
        (λ kept. MatchBool (is_second contents.version) ((rs : List (List ℤ)) × (read ≡ Ok (the_rows rs)) × (kept ≡ record contents { interiors = Some rs }))
        ((read ≡ Ok passed) × (kept ≡ contents)))
        (λ e. IsRefusedSo e read) }
{
    if !is_second(contents.version) {
        return Ok(contents);
    }
    let rows = rows_from(alloc, source, from)?;
    let Contents {
        version,
        ambient,
        rays,
        lineality,
        cones,
        interiors: _,
    } = contents;
    Ok(Contents {
        version,
        ambient,
        rays,
        lineality,
        cones,
        interiors: Some(rows),
    })
}

/// These contents and that of the section of this name, none of the four that each version has, which begins at `from`.
fn with_other(
    alloc: Global,
    source: &[u8],
    name: &[u8],
    from: usize,
    contents: Contents,
) -> Result<Contents, FanFileError>
    requires from { from ≤ length source.now }
    requires ambient { bytes_eq ambient_dim name.now ≡ false }
    requires rays { bytes_eq rays_name name.now ≡ false }
    requires lineality { bytes_eq lineality_space name.now ≡ false }
    requires cones { bytes_eq maximal_cones name.now ≡ false }
    ensures { let read = content_read (length source.now) (kind_in (fan_table contents.version) name.now) (content_from source.now from) in
        MatchResult result (λ kept. IsSectionKept name.now contents kept read) (λ e. IsRefusedSo e read) }
{
    if b"FILE_VERSION".as_slice() == name {
        return with_version(source, from, contents);
    }
    if b"MAXIMAL_INTERIORS".as_slice() == name {
        return with_interiors(alloc, source, from, contents);
    }
    Ok(contents)
}

/// These contents and that of the section of this name, which begins at `from`.
fn with_section(
    alloc: Global,
    source: &[u8],
    name: &[u8],
    from: usize,
    contents: Contents,
) -> Result<Contents, FanFileError>
    requires { from ≤ length source.now }
    ensures { let read = content_read (length source.now) (kind_in (fan_table contents.version) name.now) (content_from source.now from) in
        MatchResult result (λ kept. IsSectionKept name.now contents kept read) (λ e. IsRefusedSo e read) }
{
    let Contents {
        version,
        ambient,
        rays,
        lineality,
        cones,
        interiors,
    } = contents;
    if b"AMBIENT_DIM".as_slice() == name {
        let dimension = number_from(source, from, MOST_VARIABLES as u64)?;
        return Ok(Contents {
            version,
            ambient: Some(dimension),
            rays,
            lineality,
            cones,
            interiors,
        });
    }
    if b"RAYS".as_slice() == name {
        let rows = rows_from(alloc, source, from)?;
        return Ok(Contents {
            version,
            ambient,
            rays: Some(rows),
            lineality,
            cones,
            interiors,
        });
    }
    if b"LINEALITY_SPACE".as_slice() == name {
        let rows = rows_from(alloc, source, from)?;
        return Ok(Contents {
            version,
            ambient,
            rays,
            lineality: Some(rows),
            cones,
            interiors,
        });
    }
    if b"MAXIMAL_CONES".as_slice() == name {
        let lists = cones_from(alloc, source, from)?;
        return Ok(Contents {
            version,
            ambient,
            rays,
            lineality,
            cones: Some(lists),
            interiors,
        });
    }
    with_other(
        alloc,
        source,
        name,
        from,
        Contents {
            version,
            ambient,
            rays,
            lineality,
            cones,
            interiors,
        },
    )
}

/// What the sections of a text hold.
pub(crate) fn contents_of(alloc: Global, source: &[u8]) -> Result<Contents, FanFileError>
    ensures says { MatchResult result (Says source.now) (λ e. IsRefusedSo e (text_read (told_table source.now) source.now)) }
    ensures dimension { IfOk result (λ c. IfSome c.ambient (λ n. n ≤ MOST_VARIABLES)) }
{
    let mut names = DifferentNames::new(alloc);
    let mut contents = Contents::none(version_of(source));
    let mut at = 0;
    while let Some((start, end, next)) = section_from(source, at) {
        let name = &source[start..end];
        let new = names.insert(alloc, name)?;
        if !new {
            return Err(fault_of(start as u64, Kind::RepeatedName));
        }
        contents = with_section(alloc, source, name, next, contents)?;
        at = next;
    }
    Ok(contents)
}
