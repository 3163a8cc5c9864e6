// The replies of a run, counted.
ghost use Rattle.std.specs.Prelude.{◌≡◌, ◌-◌, ◌^◌, []};
ghost use Rattle.demo_run.specs.Tally.{tally_of, with_mark, with_reply, IsBelow};

use cert_check::Mark;
use exchange_core::Reply;

/// How many replies were given, and of which kinds.
#[derive(Clone, Copy, Debug, PartialEq, Eq)]
pub struct Tally {
    /// All replies.
    pub lines: u64,
    /// Cleared batches: those of the next three counts together.
    pub batches: u64,
    /// Batches whose surplus is proved the greatest.
    pub optimal: u64,
    /// Batches in whose run a number did not fit.
    pub wide: u64,
    /// Batches that their work budget stopped.
    pub budget: u64,
    /// Lines that were refused.
    pub refused: u64,
}

impl Tally {
    /// Of no reply.
    pub fn new() -> Self
        ensures { result ≡ tally_of [] }
    {
        Tally {
            lines: 0,
            batches: 0,
            optimal: 0,
            wide: 0,
            budget: 0,
            refused: 0,
        }
    }

    // Counts one batch more, but not as a line.
    fn count_batch(&mut self, mark: &Mark)
        requires { IsBelow (2 ^ 64 - 1) self.old }
        ensures { self.new ≡ with_mark mark.now self.old }
    {
        self.batches += 1;
        match mark {
            Mark::Optimal { .. } => self.optimal += 1,
            Mark::Wide(_) => self.wide += 1,
            Mark::Budget => self.budget += 1,
        }
    }

    /// Counts one reply more.
    pub fn count(&mut self, reply: &Reply)
        requires { IsBelow (2 ^ 64 - 1) self.old }
        ensures { self.new ≡ with_reply reply.now self.old }
    {
        match reply {
            Reply::Cleared { outcome, .. } => self.count_batch(&outcome.mark),
            Reply::Refused { .. } => self.refused += 1,
            _ => {}
        }
        self.lines += 1;
    }
}
