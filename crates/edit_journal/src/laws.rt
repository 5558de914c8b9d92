// Laws of journals, each the contract of a function that does nothing.
ghost use Rattle.edit_journal.specs.JournalTexts.{RecordsAreUnique};

/// A law: the requests whose records are complete at the front of some bytes are one list, and the
/// rest is one, too.
pub fn bytes_have_one_list()
    ensures one_reading { RecordsAreUnique }
{}
