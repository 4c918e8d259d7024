//! Laws of the list of `_bases`, of the weights of `_weightvector` and of the lines of `_generated`. The functions compute nothing: the
//! contract of each is a law.
ghost use Rattle.gfan_theory.specs.OneSourceText.{TextsAreOne, RegionTextsAreOne};
ghost use Rattle.gfan_theory.specs.Parts.{PartsAreJoined};
ghost use Rattle.gfan_theory.specs.ServedLists.{WrittenListsServe};
ghost use Rattle.gfan_theory.specs.CertifiedBases.{CertificatesHold, RegionCertificatesHold};
ghost use Rattle.gfan_theory.specs.GivingWeights.{WrittenWeightsGiveBases};
ghost use Rattle.gfan_generated.specs.OneSummary.{SummariesAreOne};
ghost use Rattle.gfan_lists.specs.ListCommand.{WideRootsAreTold};

/// The output of `_bases` for a source is the list of all bases of the ideal that the polynomials of the source generate. A basis is in it
/// if and only if some positive weight gives it; for each positive weight for which monomials generate the initial ideal, and for each term
/// order, exactly one basis of it is the reduced basis; and each positive weight is in the closed cone of a basis of it.
pub fn written_lists_serve()
    ensures { WrittenListsServe }
{}

/// Two runs of `_bases` that write the whole list for one source, both with certificates or both without, have written the same bytes, for
/// any numbers of workers.
pub fn texts_are_one()
    ensures { TextsAreOne }
{}

/// In each list that `_bases` writes with certificates, and so in its output for a source, each basis is the reduced one for the positive
/// weight that follows it. The facets that follow it are exactly those that a flip may cross, each with a positive vector that is
/// orthogonal to the facet's normal and positive on all other normals (Fukuda, Jensen, Thomas, *Computing Gröbner fans*, 2 and 4).
pub fn certificates_hold()
    ensures { CertificatesHold }
{}

/// Two runs of `_bases --within` that write the whole list for one file and one source, both with certificates or both without, have written the same bytes,
/// for any numbers of workers.
pub fn regions_have_one_text()
    ensures { RegionTextsAreOne }
{}

/// If one run of `_bases` writes the bases up to one of them, and another, by `--after`, those that follow this basis, then the bases of
/// both are the list, in its order, and the items of both texts make up its text. The first part may itself continue after a basis, so that
/// this holds for any number of parts.
pub fn parts_are_joined()
    ensures { PartsAreJoined }
{}

/// In each list of a region that is written with certificates each basis is the reduced one for the weight that follows it, which is in the
/// region. The facets that follow it are exactly those that a flip may cross in the region, each with a vector of the region in its
/// relative interior.
pub fn region_certificates_hold()
    ensures { RegionCertificatesHold }
{}

/// If the vectors of the file of `_bases --within` cut out a region and an entry of its root is greater than `2^63 - 1`, there is no
/// output, and the refusal has the first such entry, unless an operation of finding the root leaves its limits or memory runs out.
pub fn wide_roots_are_told()
    ensures { WideRootsAreTold }
{}

/// The output of `_weightvector` has the weights of the sets that it read, with or without the sets, and each weight gives its basis: it is
/// positive, and the set, made monic and arranged, is the reduced Gröbner basis for it of the ideal that the set generates.
pub fn written_weights_give_bases()
    ensures { WrittenWeightsGiveBases }
{}

/// Two runs of `_generated` that succeed for one number and one limit have written the same bytes, for any numbers of workers.
pub fn summaries_are_one()
    ensures { SummariesAreOne }
{}
