//! What comparisons are, as the contract of a function that does nothing.
ghost use Rattle.gf_order.specs.Laws.{ComparisonsAreTotal};

/// Comparisons by one order of exponent lists of one length are a total order, and products keep them.
pub fn comparisons_are_total()
    ensures { ComparisonsAreTotal }
{}
