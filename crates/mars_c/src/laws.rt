//! Laws of the library: calls with the same arguments have the same results and the same errors, and all calls start a
//! round with the same battle. The functions do nothing; their contracts are the laws.
ghost use Rattle.mars_c.specs.Laws.{DebugsRoundZero, EqualLeagues, EqualMatches, EqualOutcomes, EqualPopulations, EqualStarts, LeagueErrorsRecur, MatchErrorsRecur, OutcomeErrorsRecur, PopulationErrorsRecur, RoundsMakeTheFates, StartErrorsRecur, StartsFitAgain};

/// There is only one table of a match.
pub fn equal_matches()
    ensures { EqualMatches }
{}

/// There is only one table of a league.
pub fn equal_leagues()
    ensures { EqualLeagues }
{}

/// There is only one list of sums of a population.
pub fn equal_populations()
    ensures { EqualPopulations }
{}

/// There is only one list of outcomes of given lineups.
pub fn equal_outcomes()
    ensures { EqualOutcomes }
{}

/// There is only one battle with which a round starts.
pub fn equal_starts()
    ensures { EqualStarts }
{}

/// If a match has a table, a call with its arguments is refused only because memory ran out: errors of the settings, the formula,
/// the warriors and the match recur.
pub fn match_errors_recur()
    ensures { MatchErrorsRecur }
{}

/// If a league has a table, a call with its arguments is refused only because memory ran out.
pub fn league_errors_recur()
    ensures { LeagueErrorsRecur }
{}

/// If a population has sums, a call with its arguments is refused only because memory ran out.
pub fn population_errors_recur()
    ensures { PopulationErrorsRecur }
{}

/// If lineups have outcomes, a call with their arguments is refused only because memory ran out.
pub fn outcome_errors_recur()
    ensures { OutcomeErrorsRecur }
{}

/// If a battle can start, a call with its arguments is refused only because memory ran out.
pub fn start_errors_recur()
    ensures { StartErrorsRecur }
{}

/// If a battle was started in a block of words, the block is long enough for each call with the same arguments.
pub fn starts_fit_again()
    ensures { StartsFitAgain }
{}

/// The program debugs the battle with which round 0 of the match starts.
pub fn debugs_round_zero()
    ensures { DebugsRoundZero }
{}

/// The outcomes of a match are, round by round, the outcomes of the battles with which the rounds start.
pub fn rounds_make_the_fates()
    ensures { RoundsMakeTheFates }
{}
