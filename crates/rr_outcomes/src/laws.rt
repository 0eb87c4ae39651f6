//! Laws of what files come to, as contracts of functions that do nothing.
ghost use Rattle.rr_outcomes.specs.Laws.{AmpleSettles, CountsAgree, EachAnswer, MatchingIsMendable, MatchingStays, MendableOrNot, OneCount, OneRefusal, OneTaking, OneVerdict, PrintedIsMendable, PrintsFound, TakenOrRefused};

/// Two files are taken in one way or refused by one refusal, but for the byte that is told of a text
/// without a tree; and not some choice matches where none does.
pub fn repair_outcomes()
    ensures taking { OneTaking }
    ensures refusal { OneRefusal }
    ensures either { TakenOrRefused }
    ensures mendable { MendableOrNot }
    ensures matching { MatchingIsMendable }
{}

/// Each answer has status 0 where some choice matches, 1 where none does, or 2 where it leaves this
/// open, and then it prints nothing or a source whose tree is an instance that matches; a design that
/// matches as it is is printed as it is; and none is left open where each member may learn more than
/// c * 3^c lines, for the c bits that write a choice.
pub fn repair_answers()
    ensures each { EachAnswer }
    ensures found { PrintsFound }
    ensures printed { PrintedIsMendable }
    ensures stays { MatchingStays }
    ensures settles { AmpleSettles }
{}

/// The least number of changes depends on nothing but the files, the kind of the table, the top and the
/// clock: not on the budget, the members or the name of the certificate. So two answers with status 0 have
/// the same counts of rows, sites and changes, and none has status 1 where another has status 0.
pub fn repair_counts()
    ensures count { OneCount }
    ensures verdict { OneVerdict }
    ensures answers { CountsAgree }
{}
