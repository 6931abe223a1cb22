//! What the words say at every moment, and which event each step is.
ghost use Rattle.kf_words.specs.Laws.{AlwaysSafe, LetsInTheLive, DrainedIsUnused, FreeIsUnheld, TellsTheLinked, TellsTheHidden, HiddenIsRefused, ShownLetsIn};
ghost use Rattle.kf_words.specs.Events.{TryIsEnter, UndoIsUndo, LookIsLook, PartIsPart, LeaveIsLeave, BreakIsBreak, RestoreIsRestore, ReleaseIsRelease, HideIsHide, LookHiddenIsLook, ShowIsShow, MissIsNothing, RiseIsRise, MarkIsMark, BirthIsBorn, UnlinkIsUnlink, SplitIsPin, HeldSplitIsPin, ShareIsPin, RestIsNothing, ReportPasses, AnswerPasses, CountAtIsPin};
ghost use Rattle.kf_words.specs.History.{EndsARun, SeenLeadsHere, DrainedEverAfter, OneRunIsSeen, OneEnd, HistoryIsSeen, OneHistory, NotesStay};
ghost use Rattle.kf_words.specs.Life.{WordLife, LifeIsKept};
ghost use Rattle.kf_words.specs.NodeReads.{ReadIsBorn};
ghost use Rattle.kf_words.specs.NodeWords.{ReadAsBorn};
ghost use Rattle.kf_words.specs.Wakes.{SleepersAreFound};
ghost use Rattle.kf_words.specs.Runs.{OpensWell, RuleKept, RunIsRun, HeldIsNamed, RunIsSafe, MarkedKeepsOut, DrainedForGood, HiddenKeepsOut, PassedForGood, BornUnheld, LetInLive, TakenLive};

/// What the words say between any two steps of any number of seats, for as long as the table exists. The
/// function does nothing. Its premise is the rule of the table, which each step keeps, and its clauses say
/// what follows from the rule:
///
/// - The world of the seats is safe. In particular, nobody is running on a key on which another caller saw
///   the drain, and a caller that holds a slot holds the slot's last generation.
/// - The active word of a slot lets a try in if and only if the slot's last key is live. It has the bit BIAS
///   unless this key is linked, activated and not doomed, and the bit HIDE if and only if a caller hides this
///   key.
/// - While a caller hides a key, each try there is refused. While that caller is Hidden, nobody is running
///   there. After the step by which it shows the key again, the word lets a try in if and only if the key is
///   linked, activated and not doomed.
/// - If a slot's active word is drained, the slot's last key is doomed and nobody has a reference to its
///   node.
/// - If a slot's hold word is free, no node is linked in the slot and nobody holds the slot. The hold word
///   has the bit LINKED if and only if a node is linked in the slot.
pub fn words_tell()
    ensures always_safe { AlwaysSafe }
    ensures lets_in_the_live { LetsInTheLive }
    ensures drained_is_unused { DrainedIsUnused }
    ensures free_is_unheld { FreeIsUnheld }
    ensures tells_the_linked { TellsTheLinked }
    ensures tells_the_hidden { TellsTheHidden }
    ensures hidden_is_refused { HiddenIsRefused }
    ensures shown_lets_in { ShownLetsIn }
{}

/// Which event of the model each step of a seat is, in the world that the views name. The function does
/// nothing. Its premise is that the table meets the rule, and its clauses say how the new view of the seat
/// that makes the step changes the world:
///
/// - A try is an Enter: it lets the caller run if and only if the node is live. The step that undoes a
///   refused try is an Undo.
/// - A look that finds the word drained is a Look. A load by a drained caller that finds no node linked is a
///   Part.
/// - A step that sets the bit HIDE, and found it clear, is a Hide. A load by a hider that finds nobody is a
///   LookHidden. The step that clears the bit is a Show.
/// - If such a look or load finds otherwise, or the bit HIDE was already set, the world stays as it is. It
///   also stays if a caller's step on a hold word counts nothing.
/// - The end of a call is a Leave. A broken protection is a Break, and a restored one a Restore. The release
///   of a hold is a Release.
/// - A birth is a Born of the slot's next key. An activation is a Rise, and a mark is a Mark. Taking a node
///   out is an Unlink of any drained caller of the node.
/// - When a hold that the Master counted gets its seat, that is a Pin of a new caller. The key must be
///   linked, or some caller must hold it. The Master's other steps leave the world as it is.
/// - If a caller counts one more hold, the world that the views name stays as it is. When a hold of the
///   caller's own key then gets its seat, that is a Pin of that key, linked or not.
/// - If a caller counts a hold in the hold word of any slot (`Hold::pin`), this step is a Pin, since the word
///   shows a linked node. This is so in a world in which the hold is a caller at once: `words_run` follows
///   such a world.
/// - The seat that carries to the Master what a caller has seen holds nothing, and so does the seat of the
///   Master's reply. To add one of these seats is a Pin, followed at once by a Release.
pub fn words_step()
    ensures try_is_enter { TryIsEnter }
    ensures undo_is_undo { UndoIsUndo }
    ensures look_is_look { LookIsLook }
    ensures part_is_part { PartIsPart }
    ensures leave_is_leave { LeaveIsLeave }
    ensures break_is_break { BreakIsBreak }
    ensures restore_is_restore { RestoreIsRestore }
    ensures release_is_release { ReleaseIsRelease }
    ensures hide_is_hide { HideIsHide }
    ensures look_hidden_is_look { LookHiddenIsLook }
    ensures show_is_show { ShowIsShow }
    ensures miss_is_nothing { MissIsNothing }
    ensures rise_is_rise { RiseIsRise }
    ensures mark_is_mark { MarkIsMark }
    ensures birth_is_born { BirthIsBorn }
    ensures unlink_is_unlink { UnlinkIsUnlink }
    ensures split_is_pin { SplitIsPin }
    ensures held_split_is_pin { HeldSplitIsPin }
    ensures share_is_pin { ShareIsPin }
    ensures count_at_is_pin { CountAtIsPin }
    ensures rest_is_nothing { RestIsNothing }
    ensures report_passes { ReportPasses }
    ensures answer_passes { AnswerPasses }
{}

/// What holds over every run of steps of any number of seats, in any order, from any table that meets the
/// rule. The function does nothing. Each step is of one of the kinds that `words_step` names, and the view of
/// the seat that makes the step allows it.
///
/// A new table meets the rule, and its world is the opening world. Each step keeps the rule, so the world
/// stays safe.
///
/// Each attended run is a run of events, step by step, up to the numbers of the callers. A run is attended if
/// the Master has a reason for three kinds of its steps:
///
/// - It gives a seat to a hold only if a node is linked in the slot, or a caller holds the slot.
///   `Master::pin` requires a linked key, and `pin_held` such a caller.
/// - It takes a node out only while a caller is drained there. `unlink` requires such a caller.
/// - It replies to a hold only while the root is linked or held.
///
/// Steps of callers need no reason. So if `Hold::pin` or `Hold::another` counts a hold, that needs no
/// premise. In the world of these events, such a hold is a caller from the step that counts it, and that step
/// is its Pin. It is the same caller when it gets its seat. While no hold that was counted waits for a seat,
/// this world is the one that the views name.
///
/// The other clauses say:
///
/// - Once a key has been marked, each try there is refused from then on.
/// - Once a caller is drained or parted on a key, nobody is running on that key from then on.
/// - While a caller hides a key, each try there is refused. Once that caller is Hidden, nobody is running
///   there until it shows the key.
/// - Once a slot has been reused, only spent callers are on its earlier keys from then on. A birth finds only
///   spent callers on its slot.
/// - A try lets a caller run only if its key is live. So a caller that is Running at the end of a run either
///   was Running at the start, or was let in by a try of the run while its key was live.
/// - As long as a caller sleeps at a slot, each load of the count of that slot's sleepers finds a number
///   above 0. This is for runs from an opening, of fewer than 2^64 steps, in which a caller takes itself off
///   that count only while it sleeps there.
pub fn words_run()
    ensures opens_well { OpensWell }
    ensures rule_kept { RuleKept }
    ensures run_is_run { RunIsRun }
    ensures held_is_named { HeldIsNamed }
    ensures run_is_safe { RunIsSafe }
    ensures marked_keeps_out { MarkedKeepsOut }
    ensures drained_for_good { DrainedForGood }
    ensures hidden_keeps_out { HiddenKeepsOut }
    ensures passed_for_good { PassedForGood }
    ensures born_unheld { BornUnheld }
    ensures let_in_live { LetInLive }
    ensures taken_live { TakenLive }
    ensures sleepers_are_found { SleepersAreFound }
{}

/// What the rule of the table says about the one run of all steps, between any two steps, whatever the seats
/// do. The function does nothing: the rule is its premise.
///
/// - The table is always at the end of a run from its opening, as `words_run` describes such runs.
/// - What a seat has seen is a beginning of that run. It leads to a table that met the rule, and from there
///   the run went on to the table as it is. Of two seats, one has seen at least as much as the other.
/// - From one table, the same list of steps always leads to the same table. So what a seat has seen
///   determines a table.
/// - If a caller was drained or parted on a key at any moment of the run so far, nobody is running on that
///   key now.
/// - If a key is linked in two tables of a run, then in every table between the two, the words of its node
///   are those that were there when the node was born. The same is true of what a caller reads of a node
///   between the step that counts a hold of its key and a later look that finds the key linked.
/// - The Master has seen every note of the run. The notes that any seat has seen are a beginning of these. Of
///   two seats, one has seen at least as much of the one history as the other, and no step takes a note away.
pub fn words_kept()
    ensures ends_a_run { EndsARun }
    ensures seen_leads_here { SeenLeadsHere }
    ensures drained_ever_after { DrainedEverAfter }
    ensures one_run_is_seen { OneRunIsSeen }
    ensures one_end { OneEnd }
    ensures history_is_seen { HistoryIsSeen }
    ensures one_history { OneHistory }
    ensures notes_stay { NotesStay }
    ensures read_as_born { ReadAsBorn }
    ensures read_is_born { ReadIsBorn }
{}

/// An example of a run in which every kind of step occurs: a call, a hiding, a complete removal, and the next
/// node of the slot. So the runs that the laws here speak of exist, and the rule is met at the end of this
/// one. The function does nothing.
pub fn words_life()
    ensures lives { WordLife }
    ensures kept { LifeIsKept }
{}
