ghost use Rattle.mdp_horizon.specs.{BoundsLaws.{SumsLieBeyond, SumsAreWithin, ColumnsAreNear, RoomIsEnough}, Finer.{UnitIsFine}};

/// The rounded sum of a choice lies on its side of the exact sum, and where the row has room less than one unit from it.
pub fn rounding_law()
    ensures beyond { SumsLieBeyond }
    ensures within { SumsAreWithin }
{}

/// Where no row is wide, the covering and the following value of each state are there, and come at most one unit apart for each step.
pub fn gap_law()
    ensures { ColumnsAreNear }
{}

/// Where each row's common denominator, times the units that make 1, stays within 127 bits, no row is wide for a bounded until.
pub fn room_law()
    ensures { RoomIsEnough }
{}

/// Where there is room for it, the unit of bounds and of curves is as fine as their steps cost.
pub fn unit_law()
    ensures { UnitIsFine }
{}
