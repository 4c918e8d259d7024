//! Gröbner fans over the rational numbers: the work of the program. `run` does what the arguments request, on an input, an output and files
//! that it is given.
//!
//! `_bases` reads a ring and a set, and writes all marked reduced Gröbner bases of the set's ideal; `_buchberger` reads them too, and
//! writes the reduced Gröbner basis by lex; `_ismarkedgroebnerbasis` reads a ring and a marked set, and writes whether it is a Gröbner
//! basis for its marking; `_doesidealcontain` reads a ring, a marked basis and a set, and writes whether the basis's ideal contains the
//! set; `_leadingterms` reads a ring and a marked set, and writes its leading terms; `_markpolynomialset`, `_initialforms`, `_homogenize`,
//! `_polynomialsetunion` and `_stats` are small tools on sets; `_groebnercone` describes a cone, `_weightvector` writes weights that give
//! marked bases, `_topolyhedralfan` the fan of the cones of such bases, `_homogeneityspace` the vectors by which polynomials are
//! homogeneous, `_tropicalhypersurface` the tropical hypersurface of a polynomial, `_tropicalintersection` the intersection of those of a
//! set, `_minkowskisum` the normal fan of the sum of Newton polytopes; `_fancommonrefinement` reads two files and writes the common
//! refinement of their fans, `_migratefan` reads one and writes its fan anew; `_interactive` reads a file, and answers the input line by
//! line as a walk over bases; `_generated` reads nothing, and sums up the bases of an ideal; `_saturation` reads a ring and a set, and
//! writes the reduced basis by deglex of the saturation of its ideal by the product of the variables.
//!
//! Start at `run`. `specs/Commands.antt` has the command of each job, and `specs/` of `gfan_sets`, `gfan_fans`, `gfan_lists`,
//! `gfan_generated` and `gfan_interactive` have their outputs.
#![tactic(auto)]

mod commands;
pub mod run;
