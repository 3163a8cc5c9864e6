// The top call.
ghost use Rattle.std.specs.Prelude.{◌≡◌, ◌⊎◌, None, map, string_bytes};
ghost use Rattle.program_words.specs.Requests.{request_of};
ghost use Rattle.exchange_program.specs.Keeps.{Keeps};
ghost use Rattle.exchange_program.specs.Live.{counts_by, known_by};
ghost use Rattle.exchange_program.specs.Requests.{HadWritten, IsReadFirst, WhereDemo, WithRequest};

use crate::live::{answer_live, status_at};
use crate::serving::answer_whole_input;
use crate::status::Status;
use book_proposals::propose_live;
use byte_streams::{Sink, Source};
use program_words::{Request, WordsFault, request};
use std::alloc::Global;

/// Runs the program on the words after its name.
///
/// `run` reads commands to their end and writes a reply line for each. `quotes`
/// does the same and also answers at which prices a further order raises the greatest surplus.
/// `guarded` does the same as `run` and also answers which liability covers an account's positions,
/// and it refuses a withdrawal below what the account needs. `check` reads reply lines to their end
/// and writes one report line: that all are sound, with their counts, or the first that is not, and
/// why. `audit` does the same with lines that `serve`, `serve sessions` or `serve members` wrote.
/// `sessions` reads messages to their end and answers each, once and in its session's order.
/// `serve` answers lines of every kind, those of `quotes` and of `guarded`, what a book and an
/// account hold, and proposals, of which it charges the best where a clear's own run stops; it has
/// written the answers to all lines that are complete before it reads on. A line that asks has no
/// number and changes nothing. `serve sessions` does so with messages of sessions, whose bodies are
/// such lines, and `serve members` by the rule of who may say what. `propose` is a solver: for each
/// line that tells a market's book, as `serve` writes it, it writes a line that proposes for these
/// orders and is judged a bound, before it reads on, and for any other line nothing. `demo` with a
/// seed and a number of orders reads nothing, runs the text that it makes from them, and writes one
/// summary line.
pub fn exchange<S: Source, K: Sink>(
    alloc: Global,
    words: &[String],
    source: &mut S,
    sink: &mut K,
) -> Status
    // The words have one of the forms, or there was no memory to read them.
    ensures usage { result ≡ Status.Usage → request_of (map string_bytes words.now) ≡ None }
    ensures usage_else { request_of (map string_bytes words.now) ≡ None →
        (result ≡ Status.Usage) ⊎ (result ≡ Status.Memory) }
    ensures usage_untouched { request_of (map string_bytes words.now) ≡ None →
        (source.new ≡ source.old) × (sink.new ≡ sink.old) }

    // What the words ask for is kept.
    ensures keeps { WithRequest (map string_bytes words.now) (λ request. Keeps request
        (known_by S.left K.written source.old source.new sink.old sink.new)
        (counts_by S.faults S.taken K.faults source.old source.new sink.old sink.new) result) }

    // When the source was last read nothing had been written, or, by `serve` and `propose`, the
    // answers to the lines that were complete by then. Which read is the last is not known before
    // it, so this is so at each.
    ensures in_time { S.last_read source.old ≡ None →
        WithRequest (map string_bytes words.now) (λ request.
        HadWritten request (S.left source.old) (K.written sink.old) (S.last_read source.new)) }
    ensures silent { (result ≡ Status.ReadFault) ⊎ (result ≡ Status.TooLong) →
        WithRequest (map string_bytes words.now) (λ request.
        IsReadFirst request → sink.new ≡ sink.old) }

    // A demo reads nothing.
    ensures unread { WithRequest (map string_bytes words.now) (λ request.
        WhereDemo request (source.new ≡ source.old)) }
{
    match request(alloc, words) {
        Ok(Request::Serve(served)) => status_at(answer_live(alloc, served, source, sink)),
        Ok(Request::Propose) => status_at(propose_live(alloc, source, sink)),
        Ok(request) => answer_whole_input(alloc, request, source, sink),
        Err(WordsFault::Usage) => Status::Usage,
        Err(WordsFault::Memory) => Status::Memory,
    }
}
