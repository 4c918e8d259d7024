//! Theorems on the operations of finding rays. The functions compute nothing: each one's contract is the theorem, so that the check proves it.
ghost use Rattle.gf_rays.specs.Limits.{SystemsWithRoomStayWithinLimits, SmallSystemsHaveRoom, SmallSystemsStayWithinLimits, PartsOfOrthantsStayWithinLimits};
ghost use Rattle.gf_rays.specs.Limits.{TwoRowsOfThreeVariables, FurtherRowsStayWithinLimits, ConesHaveRoom};

/// Where bounds on the rows have room, no operation of finding the rays of a pointed cone leaves the range; so for the part of the
/// positive orthant on which some more rows aren't negative, as two rows with entries up to 30000 in three variables.
pub fn small_systems_stay_within_limits()
    ensures systems { SmallSystemsStayWithinLimits }
    ensures orthants { PartsOfOrthantsStayWithinLimits }
    ensures two_rows { TwoRowsOfThreeVariables }
{}

/// Where there is room behind the rays of a cone, by bounds on its rows and on the entries of its lineality basis and of its rays, no
/// operation of taking in more inequalities after them leaves the range; in three variables there is room, where those have
/// entries up to 1, for two inequalities up to 30000 if there is no lineality vector, and for two up to 1000 if there is one.
pub fn further_rows_stay_within_limits()
    ensures systems { FurtherRowsStayWithinLimits }
    ensures small { ConesHaveRoom }
{}

/// Where bounds on the rows have room, no operation of finding the rays leaves the range, whatever the equations and the lineality
/// space; there is room for three variables and two inequalities with entries up to 1, or one up to 2, or none up to 3, and for two
/// variables and two up to 50.
pub fn systems_with_room_stay_within_limits()
    ensures systems { SystemsWithRoomStayWithinLimits }
    ensures small { SmallSystemsHaveRoom }
{}
