//! Where logs are, and how they are read.
ghost use Rattle.std.specs.Prelude.{◌≡◌};
ghost use Rattle.log_source.specs.Sources.{longest_log, longest_read};

use audit_base::sizes::LONGEST_LOG;
use audit_base::terms::Form;
use log_source::limits::LONGEST_READ;
use seeded_hash::seed::HashSeed;

/// Where a log is, the name that a shelf finds it under, and how it is read.
#[derive(Clone, Copy, Debug)]
pub struct Source<'a> {
    pub name: &'a str,
    pub form: Form,
    /// How many bytes it may have: at most `log_source::limits::LONGEST_READ`.
    pub limit: u64,
    /// What the hashes begin with by which its keys and trade ids are found.
    pub seed: HashSeed,
}

/// The two logs of an audit, each where it is and how it is read.
#[derive(Clone, Copy, Debug)]
pub struct LogSources<'a> {
    pub orders: Source<'a>,
    pub trades: Source<'a>,
}

impl Source<'_> {
    /// The log of this name and form, of at most this many bytes, read with hashes of this seed.
    fn within(name: &str, form: Form, limit: u64, seed: HashSeed) -> Source<'_>
        ensures name { result.name.now ≡ name.now }
        ensures form { result.form ≡ form }
        ensures limit { result.limit ≡ limit }
    {
        Source {
            name,
            form,
            limit,
            seed,
        }
    }

    /// The log of this name and form, of at most 64 MiB, read with hashes of this seed.
    pub fn of(name: &str, form: Form, seed: HashSeed) -> Source<'_>
        ensures name { result.name.now ≡ name.now }
        ensures form { result.form ≡ form }
        ensures limit { result.limit ≡ longest_log }
    {
        Source::within(name, form, LONGEST_LOG as u64, seed)
    }

    /// The log of a day of this name and form, of at most 34,359,738,368 bytes, read with hashes of
    /// this seed.
    pub fn of_day(name: &str, form: Form, seed: HashSeed) -> Source<'_>
        ensures name { result.name.now ≡ name.now }
        ensures form { result.form ≡ form }
        ensures limit { result.limit ≡ longest_read }
    {
        Source::within(name, form, LONGEST_READ, seed)
    }
}
