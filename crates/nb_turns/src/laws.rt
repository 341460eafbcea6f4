//! What holds of all turns, of all runs, and of all that a caller was answered. Each function here does nothing but to cite laws of
//! the book: its contract is the law.

ghost use Rattle.nb_turns.specs.Laws as law;
ghost use Rattle.nb_turns.specs.Worked as worked;

/// The least and the most requests of a turn, and the most turns that may fail.
pub fn limits()
    ensures { law.LimitsAre }
{}

/// A turn of one request is a turn over the list of it, and no other turn is.
pub fn one_is_turn()
    ensures { law.OneIsTurn }
{}

/// What is answered one request at a time is a run.
pub fn ones_are_run()
    ensures { law.OnesAreRun }
{}

/// The last state of a run is one that the house was in.
pub fn last_is_state()
    ensures { law.LastIsState }
{}

/// A run, and one from its last state, are a run.
pub fn run_then()
    ensures { law.RunThen }
{}

/// One request more is decided over what is recorded behind those before it.
pub fn one_more()
    ensures { law.OneMore }
{}

/// Each request of a turn is answered, in their order; it has a place exactly where the turn decided.
pub fn each_is_answered()
    ensures { law.EachIsAnswered }
{}

/// A turn that failed leaves something in doubt. Where nothing was, its verdicts over the entries record something.
pub fn failure_leaves_doubt()
    ensures { law.FailureLeavesDoubt }
{}

/// Behind a turn stand the entries before it, then all that was in doubt or nothing of it, and then at most one entry a request.
pub fn turn_grows()
    ensures { law.TurnGrows }
{}

/// The entries of each state of a run begin with those at its start.
pub fn run_grows()
    ensures { law.RunGrows }
{}

/// Where what a house records may come next and has room, a turn of 1 to 32 requests keeps this of a state: the entries, also with those in doubt, are Legal and
/// within the cap, at most 32 are in doubt, and at most 1,000 turns failed.
pub fn turn_keeps_legal()
    ensures { law.TurnKeepsLegal }
{
    nb_book::laws::stays_legal();
}

/// So it is in each state of a run of such a house from a state in which it is so.
pub fn run_keeps_legal()
    ensures { law.RunKeepsLegal }
{
    turn_keeps_legal();
}

/// Where a house records only what a journal of one version and one rate may have, a turn keeps each entry so, also of those in doubt.
pub fn turn_keeps_rate()
    ensures { law.TurnKeepsRate }
{}

/// So it is in each state of a run.
pub fn run_keeps_rate()
    ensures { law.RunKeepsRate }
{}

/// Where what a house records may come next and has room, money is neither made nor lost in each state of a run from a state whose entries, also
/// with those in doubt, are Legal and within the cap, with at most 32 in doubt and at most 1,000 turns that failed.
pub fn run_keeps_money()
    ensures { law.RunKeepsMoney }
{
    run_keeps_legal();
}

/// A stop at any moment of a turn leaves the entries before it or behind it, each without those in doubt or with them.
pub fn stop_leaves()
    ensures { law.StopLeaves }
{}

/// The lines of a turn are of who asked, and have its number.
pub fn lines_are_of()
    ensures { law.LinesAreOf }
{}

/// The lines of a turn, behind lines that do not end in a doubt, tell a turn from a state over the lines before it to a state over those behind it.
pub fn lines_tell_turn()
    ensures { law.LinesTellTurn }
{}

/// Each turn from a state over lines that do not end in a doubt, with no more in doubt than a turn has requests, has lines that tell it.
pub fn turn_adds_lines()
    ensures { law.TurnAddsLines }
{}

/// Where what a house records may come next and has room, the lines of a turn, behind lines that do not end in a doubt, keep what is recorded, also
/// with what they tell to be in doubt, Legal and within the cap.
pub fn lines_keep_legal()
    ensures { law.LinesKeepLegal }
{
    nb_book::laws::stays_legal();
}

/// Lines stay sound behind each turn: neighbours that adopt have all that was in doubt before them.
pub fn lines_stay_sound()
    ensures { law.LinesStaySound }
{}

/// Of lines whose turns never fall in number each is below the next turn.
pub fn next_is_above()
    ensures { law.NextIsAbove }
{}

/// The numbers of turns never fall behind a turn that has the next one.
pub fn turns_never_fall()
    ensures { law.TurnsNeverFall }
{}

/// The lines of a turn tell its failure, where it failed, and no other.
pub fn lines_tell_failure()
    ensures { law.LinesTellFailure }
{}

/// What a caller was answered, and then was answered over what it had seen by then, is what it was answered.
pub fn answered_then()
    ensures { law.AnsweredThen }
{}

/// What a caller had seen first stays, and the lines since then come behind it.
pub fn seen_grows()
    ensures { law.SeenGrows }
{}

/// The lines of a caller are those of its turns, in order, and nothing else.
pub fn own_lines_alone()
    ensures { law.OwnLinesAlone }
{}

/// Each verdict was taken over the first entries of a list, and its entry is the next one there.
pub fn places_stand()
    ensures { law.PlacesStand }
{}

/// Where a mark says that too many turns failed, so many faults are told.
pub fn worn_stands()
    ensures { law.WornStands }
{}

/// The lines of a turn have one number, and those of different turns have different ones.
pub fn turns_apart()
    ensures { law.TurnsApart }
{}

/// Two enrolments and a fund in one turn, in numbers: each is told by its own place, and the balance is that behind the fund.
pub fn three_at_once()
    ensures { worked.ThreeAtOnce }
{}

/// The disk fails in that turn, what it records is kept, and then the three come again: three refusals, three lines that adopt, and the
/// replies to what is held.
pub fn kept_together()
    ensures { worked.KeptTogether }
{}

/// The fund alone, and the disk fails: it is dropped, and comes again as a new entry.
pub fn dropped_and_recorded()
    ensures { worked.DroppedAndRecorded }
{}

/// The disk fails: the fund is kept, and told again.
pub fn kept_and_told()
    ensures { worked.KeptAndTold }
{}

/// Settling fails too: the fund is in doubt until the third turn.
pub fn failed_twice()
    ensures { worked.FailedTwice }
{}
