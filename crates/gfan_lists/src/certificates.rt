//! The certificates of a basis in the list of `_bases`: its printed weight, and the facets that a flip may cross, each with its printed
//! witness.
ghost use Rattle.std.specs.Prelude.{◌≡◌, ◌++◌, flat_map, length, ℕ, List, IfErr, OnOk};
ghost use Rattle.gfan_lists.specs.Certificates.{facet_text, later_facet_text, facets_text, certificates_text, IsCertificatesTextIn, IsUncertifiedIn};

use gf_cone::Region;
use gf_front::Refusal;
use gf_poly::MarkedSet;
use gf_text::Printer;
use gf_weights::{BasisCertificates, FacetWitness, certify_in};
use gfan_common::refused::of_weight_error;
use std::alloc::{AllocError, Global};

/// Adds a facet.
fn push_facet(text: &mut Vec<u8>, facet: &FacetWitness) -> Result<(), AllocError>
    ensures { OnOk result (text.new.items ≡ text.old.items ++ facet_text facet.now) }
{
    text.push(b'{')?;
    Printer::vector(text, &facet.normal)?;
    text.push(b',')?;
    Printer::vector(text, &facet.witness)?;
    text.push(b'}')?;
    Ok(())
}

/// Adds facets, each after a comma and a line end.
fn push_later_facets(text: &mut Vec<u8>, facets: &[FacetWitness]) -> Result<(), AllocError>
    ensures { OnOk result (text.new.items ≡ text.old.items ++ flat_map later_facet_text facets.now) }
{
    'facets: for facet in facets {
        text.extend_from_slice(b",\n")?;
        push_facet(text, facet)?;
    }
    Ok(())
}

/// Adds facets with a comma and a line end between them.
fn push_facets(text: &mut Vec<u8>, facets: &[FacetWitness]) -> Result<(), AllocError>
    ensures { OnOk result (text.new.items ≡ text.old.items ++ facets_text facets.now) }
{
    if let [first, later @ ..] = facets {
        push_facet(text, first)?;
        push_later_facets(text, later)?;
    }
    Ok(())
}

/// Adds a line end, the weight, a line end, and the facets in braces.
fn push_certificates(text: &mut Vec<u8>, told: &BasisCertificates) -> Result<(), AllocError>
    ensures { OnOk result (text.new.items ≡ text.old.items ++ certificates_text told.now.weight told.now.facets.items) }
{
    text.push(b'\n')?;
    Printer::vector(text, &told.weight)?;
    text.extend_from_slice(b"\n{")?;
    push_facets(text, told.facets.as_slice())?;
    text.push(b'}')?;
    Ok(())
}

/// Adds the certificates of a basis in a region.
pub(crate) fn push_certified(
    text: &mut Vec<u8>,
    alloc: Global,
    basis: &MarkedSet,
    region: &Region,
) -> Result<(), Refusal>
    requires { length region.now.root ≡ basis.now.variables }
    ensures ok { OnOk result ((told : List ℕ) × IsCertificatesTextIn region.now basis.now told × (text.new.items ≡ text.old.items ++ told)) }
    ensures err { IfErr result (IsUncertifiedIn region.now basis.now) }
{
    let told = match certify_in(alloc, basis, region) {
        Ok(told) => told,
        Err(error) => return Err(of_weight_error(error)),
    };
    push_certificates(text, &told)?;
    Ok(())
}
