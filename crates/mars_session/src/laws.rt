//! Laws of the history: theorems about the definitions only.
ghost use Rattle.mars_session.specs.Laws.{CallsAreScripts, UndosGiveBack, RedosGiveAgain, RefusalsChangeNothing, NeverFull, CommandsAreUndone, FewCommandsAreUndone, RedoAfterUndo, MovesKeepPlaces, UndoFindsNearest, RedoFindsNearest, GotoFindsFirst, CommandsAppend, BeginningIsTape, CallsKeepTapes, ScriptsKeepTapes, ScriptsForgetTapes, GotoBetween, TurnsAndCyclesRise, UntilArrives, CallsKeepLimit, PlacesAreValid};

/// If calls are executed one after another, the replies and the final history are those of the definition `script`.
pub fn calls_are_scripts()
    ensures { CallsAreScripts }
{}

/// If all places are kept: after accepted commands, as many undos are accepted, and restore the state and the position.
pub fn undos_give_back()
    ensures { UndosGiveBack }
{}

/// If all places are kept: after accepted commands and as many undos, as many redos are accepted, and restore the
/// history after the commands exactly.
pub fn redos_give_again()
    ensures { RedosGiveAgain }
{}

/// A refused call changes nothing, also if an allocation failed.
pub fn refusals_change_nothing()
    ensures { RefusalsChangeNothing }
{}

/// If the tape evicts places, no call is refused because of the limit or of memory.
pub fn never_full()
    ensures { NeverFull }
{}

/// If all places are kept: after any commands, some of which may be refused, as many calls of `Undo` as commands were accepted
/// are all accepted, and restore the state and the position. As many calls of `Redo` after them are all accepted, and restore
/// the history after the commands exactly.
pub fn commands_are_undone()
    ensures { CommandsAreUndone }
{}

/// If `k` places are kept beside the last one, commands that append at most `k` places together can be undone and redone in the
/// same way. The position may be another one, because places may be evicted.
pub fn few_commands_are_undone()
    ensures { FewCommandsAreUndone }
{}

/// From a marked place, redo after an accepted undo restores the history.
pub fn redo_after_undo()
    ensures { RedoAfterUndo }
{}

/// A move leads to a history with the same places.
pub fn moves_keep_places()
    ensures { MovesKeepPlaces }
{}

/// Undo leads to the nearest marked place before the present one.
pub fn undo_finds_nearest()
    ensures { UndoFindsNearest }
{}

/// Redo leads to the nearest marked place after the present one.
pub fn redo_finds_nearest()
    ensures { RedoFindsNearest }
{}

/// Goto leads to the first place with the given number of turns.
pub fn goto_finds_first()
    ensures { GotoFindsFirst }
{}

/// An accepted command keeps the places before the present one, marks the present one, and appends its own places.
pub fn commands_append()
    ensures { CommandsAppend }
{}

/// The history whose only place is marked and has a valid state is a tape, however many places are kept.
pub fn beginning_is_tape()
    ensures { BeginningIsTape }
{}

/// If all places are kept, a tape is still a tape after every call: each place is a turn or an edit of the one before
/// it, and the first and the last are marked.
pub fn calls_keep_tapes()
    ensures { CallsKeepTapes }
{}

/// If all places are kept, a tape is still a tape after every list of calls: each place is a turn or an edit of the one
/// before it, and the first and the last are marked.
pub fn scripts_keep_tapes()
    ensures { ScriptsKeepTapes }
{}

/// If `k` places are kept beside the last one, a tape with at most `k` places before the last one is still one after
/// every list of calls: each place is a turn or an edit of the one before it, and the last is marked.
pub fn scripts_forget_tapes()
    ensures { ScriptsForgetTapes }
{}

/// The numbers of turns and of cycles never fall along a tape, and rise by at most one from place to place.
pub fn turns_and_cycles_rise()
    ensures { TurnsAndCyclesRise }
{}

/// Goto finds a place exactly if the first place has at most and the last place at least the given number of turns.
pub fn goto_between()
    ensures { GotoBetween }
{}

/// After an accepted `until`, the battle is in the requested cycle or is over.
pub fn until_arrives()
    ensures { UntilArrives }
{}

/// If all places are kept, a tape is still within its limit after every call, because no command appends more places
/// than its bound.
pub fn calls_keep_limit()
    ensures { CallsKeepLimit }
{}

/// Each place of a tape has a valid state.
pub fn places_are_valid()
    ensures { PlacesAreValid }
{}
