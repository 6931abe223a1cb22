//! Laws about what links lead to.
ghost use Rattle.kf_looks.specs.Laws.{NeverFoundAgain, LastLinkLeads, OthersStay};

/// What holds of every list of links. The function does nothing: its clauses are the law.
///
/// If a key's only name was taken away, and no later link gives the key a name, no look-up that has seen this
/// finds the key again, unless the look-up starts at the key itself. (Keys are born once.) The last link of a
/// name is what the name leads to, and it changes no other name.
pub fn links_tell()
    ensures never_found_again { NeverFoundAgain }
    ensures last_link_leads { LastLinkLeads }
    ensures others_stay { OthersStay }
{}
