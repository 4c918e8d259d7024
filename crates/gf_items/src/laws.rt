//! Laws of what is read: each function ensures one, and does nothing.
ghost use Rattle.gf_items.specs.ReadOnce.{ItemsAreReadOnce, SourcesAreReadOnce};

/// Items of any kinds, one behind another, are read from a place in one way at most, aren't refused where they are read but for want
/// of memory, and have one first fault at most. The same of a whole source, behind whose items only white space stands.
pub fn sources_are_read_once()
    ensures items { ItemsAreReadOnce }
    ensures sources { SourcesAreReadOnce }
{}
