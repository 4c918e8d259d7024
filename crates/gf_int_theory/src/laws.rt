//! Laws of whole numbers, each ensured by a function that does nothing.

ghost use Rattle.gf_int_theory.specs.Laws.{EuclidsLemma, LowestTermsAreUnique, QuotientsAreCoprime, ContentExists, ContentIsUnique, DivisionByContent};

/// Euclid's lemma (*Elements*, 7.30): a number that divides a product and is coprime to one factor divides the other.
pub fn euclids_lemma()
    ensures { EuclidsLemma }
{}

/// A fraction has lowest terms, by the greatest common divisor, and only one pair of them.
pub fn lowest_terms()
    ensures exist { QuotientsAreCoprime }
    ensures unique { LowestTermsAreUnique }
{}

/// A list has a content, and only one.
pub fn content_of_list()
    ensures exists { ContentExists }
    ensures unique { ContentIsUnique }
{}

/// Division by the content loses nothing, and leaves a primitive list.
pub fn division_by_content()
    ensures { DivisionByContent }
{}
