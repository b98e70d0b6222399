//! Reports of what was counted in a search, and of how long each part of the work took; and when the time is spent.
ghost use Rattle.std.specs.Prelude.{◌≡◌, None, false};

use std::io::{self, Write};
use std::time::{Clock, CpuClock, Duration, Instant};
use varisat_schedule::counters::Counters;

/// Takes the time of each part of the work, and reports it where that is wanted. Knows when the time is spent.
#[derive(Drop)]
pub struct Watch<'a, C: Clock + CpuClock> {
    clock: &'a C,
    is_reporting: bool,
    /// How many seconds of CPU time the process has, if they are limited.
    pub max_seconds: Option<u64>,
}

impl<'a, C: Clock + CpuClock> Watch<'a, C> {
    /// One that reports or not, by this clock, and limits the CPU time or not.
    pub fn new(clock: &'a C, is_reporting: bool, max_seconds: Option<u64>) -> Watch<'a, C>
        ensures { result.max_seconds ≡ max_seconds }
    {
        Watch {
            clock,
            is_reporting,
            max_seconds,
        }
    }

    /// How much CPU time the process took so far. Where the clock fails it is the greatest that there is, so that a limit
    /// is kept to.
    pub fn cpu_time(&self) -> Duration {
        self.clock.process_cpu_time().unwrap_or(Duration::MAX)
    }

    /// Whether the time is limited, and was spent once the process had taken so much of it.
    pub fn is_spent_at(&self, now: Duration) -> bool
        ensures { self.now.max_seconds ≡ None → result ≡ false }
    {
        match self.max_seconds {
            Some(seconds) => now.as_secs() >= seconds,
            None => false,
        }
    }

    /// Whether the time is limited and spent.
    pub fn is_spent(&self) -> bool
        ensures { self.now.max_seconds ≡ None → result ≡ false }
    {
        self.is_spent_at(self.cpu_time())
    }

    /// The present moment. An error is the clock's.
    pub fn start(&self) -> io::Result<Instant> {
        Instant::now(self.clock)
    }

    /// How many milliseconds there were since the moment; 0 where the clock fails.
    pub fn milliseconds_since(&self, start: io::Result<Instant>) -> u128 {
        match start {
            Ok(start) => match start.elapsed(self.clock) {
                Ok(time) => time.as_millis(),
                Err(_) => 0,
            },
            Err(_) => 0,
        }
    }

    /// Reports under the name how many milliseconds there were since the moment.
    pub fn tell<E: Write>(&self, err: &mut E, name: &str, start: io::Result<Instant>) {
        self.tell_milliseconds(err, name, self.milliseconds_since(start));
    }

    /// Reports under the name how many milliseconds something took.
    pub fn tell_milliseconds<E: Write>(&self, err: &mut E, name: &str, milliseconds: u128) {
        if self.is_reporting {
            // A writer that fails here leaves nothing to report.
            let _ = writeln!(err, "c {name:<22} {milliseconds:>14}");
        }
    }

    /// Reports what was counted in a search of so many steps.
    pub fn tell_counts<E: Write>(&self, err: &mut E, steps: u64, counters: &Counters) {
        if self.is_reporting {
            let _ = write_counts(err, steps, counters);
        }
    }
}

/// Writes what was counted in a search, a number a line, under the names that the library for C has for it.
pub fn write_counts<E: Write>(err: &mut E, steps: u64, counters: &Counters) -> io::Result<()> {
    let rows = [
        ("steps", steps),
        ("conflicts", counters.conflicts),
        ("decisions", counters.decisions),
        ("propagations", counters.propagations),
        ("restarts", counters.restarts),
        ("learned_literals", counters.learned_literals),
        ("deleted_clauses", counters.deleted_clauses),
        ("collections", counters.collections),
    ];
    for (name, count) in rows {
        writeln!(err, "c {name:<22} {count:>14}")?;
    }
    Ok(())
}
