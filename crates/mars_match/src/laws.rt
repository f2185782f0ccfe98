//! Laws of the definitions. The functions do nothing; their contracts are the laws.
ghost use Rattle.mars_match.specs.Laws.{EachHasOneOrder, EachMatchIsCounted, EachRoundIsCounted, FatesAreOutcomes, FullCoresLeaveNoChoice, LeaguesAddUp, NewcomersChangeNothing, RanksByPoints};

/// Each list of values has exactly one ascending order: it has the same values, and none is smaller than one before it.
pub fn each_has_one_order()
    ensures { EachHasOneOrder }
{}

/// A ranking has the same rows, no row has more points than one before it, and rows with equal points keep their order.
pub fn ranks_by_points()
    ensures { RanksByPoints }
{}

/// If the minimum distances of the warriors fill the core, the starts in order are the multiples of the distance,
/// whatever the seed.
pub fn full_cores_leave_no_choice()
    ensures { FullCoresLeaveNoChoice }
{}

/// In each row of a match, wins, ties and losses add up to the number of rounds.
pub fn each_round_is_counted()
    ensures { EachRoundIsCounted }
{}

/// In each row of a league, wins, ties and losses add up to the number of rounds of the matches with each other warrior.
pub fn each_match_is_counted()
    ensures { EachMatchIsCounted }
{}

/// The fates and the outcomes of a match have the same survivors, so the rows of a match are sums over its fates.
pub fn fates_are_outcomes()
    ensures { FatesAreOutcomes }
{}

/// However the pairs of a league are divided in two, the sums of the parts add up to those of the league.
pub fn leagues_add_up()
    ensures { LeaguesAddUp }
{}

/// Without the pairs of the last warrior, the pairs of a league are those of the other warriors.
pub fn newcomers_change_nothing()
    ensures { NewcomersChangeNothing }
{}
