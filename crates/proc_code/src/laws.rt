//! Laws of code. The call does nothing: that its contract is proved is what it is for.

ghost use Rattle.proc_code.specs.Laws.Acts.{ActsFromTheBeginning, ActsFromEachSite, StandsAtItsActs};

/// The code of a process makes exactly its acts: from the beginning on any inputs, and from each site with any variables
/// on anything that is unread, each within a number of instructions that is known before; and the table of sites says
/// what is done next at each of them.
pub fn code_law()
    ensures begins { ActsFromTheBeginning }
    ensures resumes { ActsFromEachSite }
    ensures next { StandsAtItsActs }
{}
