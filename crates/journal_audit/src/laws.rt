//! What an audit shows: the contracts of functions that do nothing.
ghost use Rattle.journal_audit.specs.Laws.{AuditsSay, SoundLinesAreFoundSo};

/// Where a report names no line, each line is the print of a reply of `serve`, of a refusal of the
/// gate, or of the reply to an accepted message, within its ranges; each cleared batch covers its
/// surplus, which is the greatest where it is marked optimal, and within its bound where it is
/// marked bounded. Where a report names a line, those before it are such lines, and it is found
/// faulty for the reason that is told.
pub fn audits_say()
    ensures { AuditsSay }
{}

/// A line is found no fault exactly where it is a sound one: where it is the print of a reply of
/// `serve`, of a refusal of the gate, or of the reply to an accepted message, within its ranges,
/// and what it claims of a cleared batch is proved.
pub fn sound_lines_are_found_so()
    ensures { SoundLinesAreFoundSo }
{}
