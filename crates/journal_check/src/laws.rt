//! What a report shows: the contracts of functions that do nothing.
ghost use Rattle.journal_check.specs.Laws.{JournalsAreCounted, ReportsSay};

/// Where a report names no line, each line is the line of a reply within its ranges, and the
/// verdict on each cleared batch is yes: its fills cover its surplus, which is the greatest where
/// it is marked optimal, as its measure proves. Where it names a line, those before it are such
/// lines, and that line fails just the test that is told.
pub fn reports_say()
    ensures { ReportsSay }
{}

/// The journal of replies within their ranges, each cleared batch among them with the verdict yes,
/// is reported as sound, with the counts of these replies.
pub fn journals_are_counted()
    ensures { JournalsAreCounted }
{}
