//! S-polynomials, division with remainder, normal forms and interreduction of marked polynomials.
#![tactic(auto)]

mod autoreduction;
mod chains;
mod dividend;
mod divisions;
mod front;
mod monic;
mod normal_forms;
mod reducers;
mod remainders;
mod s_polynomials;
mod steps;
mod table;
mod weights;

pub use autoreduction::{autoreduce, autoreduce_by, index_of, is_needed, reduced_tail};
pub use chains::stride;
pub use dividend::Dividend;
pub use divisions::{Division, divide};
pub use front::{Guide, arranged};
pub use normal_forms::{normal_form, reduced};
pub use reducers::{divisor_of, reducer_of};
pub use remainders::remainder;
pub use s_polynomials::s_poly;
pub use steps::reduce_step;
pub use weights::weight_of;
