//! What the numbers say at every moment, and over every run of steps.
ghost use Rattle.kf_notify.specs.Laws.{NeverBelow, NeverBelowTheFirst};
ghost use Rattle.kf_notify.specs.Laws.{OpensWell, RuleKept, NeverGoesBack, NoneSkipped};
ghost use Rattle.kf_notify.specs.Laws.{StaysRaised, LaterIsGreater};
ghost use Rattle.kf_notify.specs.History.{OpensKept, EndsARun, SeenLeadsHere, RaisedEverAfter, FirstOrRaised};
ghost use Rattle.kf_notify.specs.History.{OneRunIsSeen, OneEnd};

/// What the words say between any two steps of any number of posts, as long as the table lives. The function
/// does nothing. The premise of its clauses is the rule of the table, which each step keeps.
///
/// A slot's number is never below one that any post has seen or made there, nor below the first.
pub fn numbers_tell()
    ensures never_below { NeverBelow }
    ensures never_below_the_first { NeverBelowTheFirst }
{}

/// What holds over every run of steps of any number of posts and handles, in any order. The function does
/// nothing.
///
/// The table meets the rule at its opening, and each step keeps the rule. No slot's number ever goes back,
/// and none is skipped: each number that a slot's word has reached was made by a raise to that number, on
/// that slot. A slot's number never falls below what it was raised to. So a notify that begins after another
/// notify of the same slot has ended makes a greater number. Only notifies that overlap may make the same
/// number.
pub fn numbers_run()
    ensures opens_well { OpensWell }
    ensures rule_kept { RuleKept }
    ensures never_goes_back { NeverGoesBack }
    ensures none_skipped { NoneSkipped }
    ensures stays_raised { StaysRaised }
    ensures later_is_greater { LaterIsGreater }
{}

/// What the rule of the table says of the one run between any two steps, whatever the seats do. The function
/// does nothing. The premise of its clauses is the rule.
///
/// The table meets the rule at its opening. At each later moment it is at the end of a run from its opening,
/// as in `numbers_run`. What a seat has seen is a beginning of that run. This beginning leads to a table that
/// met the rule. From there the run went on to the table as it is, and no number went back. If a slot's
/// number was raised to some number at any moment of the run, it is not below that number now. A slot's
/// number is the first one, or it was raised to exactly this number. Of two seats, one has seen at least as
/// much as the other. The same steps lead to the same table, so what a seat has seen determines that table.
pub fn numbers_kept()
    ensures opens_kept { OpensKept }
    ensures ends_a_run { EndsARun }
    ensures seen_leads_here { SeenLeadsHere }
    ensures raised_ever_after { RaisedEverAfter }
    ensures first_or_raised { FirstOrRaised }
    ensures one_run_is_seen { OneRunIsSeen }
    ensures one_end { OneEnd }
{}
