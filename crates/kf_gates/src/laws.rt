//! What holds of a gate at every moment, and over every run of steps.
ghost use Rattle.kf_gates.specs.Laws.{InsideOnLast, ClosedIsEmpty, ShutLetsNobodyIn, OpenLetsIn};
ghost use Rattle.kf_gates.specs.Runs.{OpensWell, RuleKept, NobodyPastTheMark, ClosedForGood};

/// What holds between any two steps, and over each run of steps of any number of seats. The function does
/// nothing. Its clauses say what follows from the rule, which the words of a new gate meet and each step
/// keeps.
///
/// Whoever is inside came in under the number of the last opening. Once the keeper has seen every lane empty
/// since it shut the gate, nobody is inside. Whoever is inside at any later moment came in under a later
/// number. While the gate is shut, a look lets nobody in, so nobody gets in under its number after it was
/// shut. While the gate is open, a look lets its caller in.
pub fn gates_tell()
    ensures inside_on_last { InsideOnLast }
    ensures closed_is_empty { ClosedIsEmpty }
    ensures shut_lets_nobody_in { ShutLetsNobodyIn }
    ensures open_lets_in { OpenLetsIn }
    ensures opens_well { OpensWell }
    ensures rule_kept { RuleKept }
    ensures nobody_past_the_mark { NobodyPastTheMark }
    ensures closed_for_good { ClosedForGood }
{}
