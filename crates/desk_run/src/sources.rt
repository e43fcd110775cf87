//! Which logs and which symbols of a day a request is about.
ghost use Rattle.std.specs.Prelude.{◌≡◌};
ghost use Rattle.desk_run.specs.Requests.{share_or_whole};
ghost use Rattle.log_source.specs.Sources.{longest_read};

use day_symbols::shares::DayShare;
use desk_words::requests::NamedLogs;
use log_verdict::sources::{LogSources, Source};
use seeded_hash::seed::HashSeed;

/// The logs of a day that a request names, read with hashes of this seed.
pub(crate) fn sources_of(logs: &NamedLogs, seed: HashSeed) -> LogSources<'_>
    ensures orders_name { result.orders.name.now ≡ logs.now.orders }
    ensures orders_form { result.orders.form ≡ logs.now.orders_form }
    ensures orders_limit { result.orders.limit ≡ longest_read }
    ensures trades_name { result.trades.name.now ≡ logs.now.trades }
    ensures trades_form { result.trades.form ≡ logs.now.trades_form }
    ensures trades_limit { result.trades.limit ≡ longest_read }
{
    LogSources {
        orders: Source::of_day(logs.orders.as_str(), logs.orders_form, seed),
        trades: Source::of_day(logs.trades.as_str(), logs.trades_form, seed),
    }
}

/// The share that is asked for: the whole day where none is given.
pub(crate) fn share_asked(share: Option<DayShare>) -> DayShare
    ensures { result ≡ share_or_whole share }
{
    match share {
        Some(share) => share,
        None => DayShare::whole(),
    }
}
