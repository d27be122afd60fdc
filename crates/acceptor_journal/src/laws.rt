//! Laws of any sequence of journal calls. A law takes nothing and does nothing; a call of it gives the caller's proof
//! what the law says.
ghost use Rattle.acceptor_journal.specs.Durable.{EachAppend, EachFinish, EachOpening, EachReading};
ghost use Rattle.acceptor_journal.specs.Histories.{CallsInARowAreAHistory, EachHistoryKeepsRecords};

/// Take any calls of [`open_journal`](crate::open_journal), [`next`](crate::Reader::next),
/// [`finish`](crate::Reader::finish) and [`append`](crate::Journal::append), each on the result of the last opening, on
/// a disk whose file was empty at first, with crashes between them. Whenever a crash comes, even inside a call, the
/// records that are read back are those whose `append` returned `Ok`, and at most one more: the one that was being
/// appended, or whose `append` had failed. A record that was read back, and whose journal was then finished, counts as
/// appended.
pub fn what_was_appended_is_read_back()
    ensures { EachHistoryKeepsRecords }
{}

/// Calls made one after another are such a history, so the law above is not empty.
pub fn calls_in_a_row_are_a_history()
    ensures { CallsInARowAreAHistory }
{}

/// The effect of [`open_journal`](crate::open_journal) on a disk where a crash leaves what a read gives.
pub fn an_opening_changes_no_file()
    ensures { EachOpening }
{}

/// The effect of [`next`](crate::Reader::next) on a durable file.
pub fn a_reader_gives_each_record()
    ensures { EachReading }
{}

/// The effect of [`finish`](crate::Reader::finish) on a durable file that a journal wrote.
pub fn a_finish_keeps_what_was_read()
    ensures { EachFinish }
{}

/// The effect of [`append`](crate::Journal::append) after the records of a durable file.
pub fn an_append_keeps_what_was_kept()
    ensures { EachAppend }
{}
