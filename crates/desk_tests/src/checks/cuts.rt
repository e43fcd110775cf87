//! Days whose logs end too early.
ghost use Rattle.std.specs.Prelude.{◌≤◌};

use crate::checks::answers::{RowFault, answer_of};
use crate::checks::inputs::log_of;
use audit_base::faults::NoMemory;
use audit_base::terms::Which;
use log_source::quiet_shelf::QuietShelf;
use std::alloc::Global;

/// The status and the text where the log ends after at most this many bytes, and after more
/// than the row before has.
#[derive(Clone, Copy)]
pub(crate) struct Cut {
    pub(crate) last: usize,
    pub(crate) status: u8,
    pub(crate) report: &'static str,
}

/// Two logs of which one is cut, and what is answered at each of its lengths.
#[derive(Clone, Copy)]
pub(crate) struct CutLogs {
    pub(crate) words: &'static str,
    pub(crate) orders: &'static [&'static str],
    pub(crate) trades: &'static [&'static str],
    pub(crate) which: Which,
    pub(crate) cuts: &'static [Cut],
}

/// A shelf of these logs, one of them cut to this length, which gives at most `piece` bytes at
/// once.
fn cut_shelf(
    alloc: Global,
    logs: &CutLogs,
    length: usize,
    piece: usize,
) -> Result<QuietShelf, NoMemory>
    requires { 1 ≤ piece }
{
    let mut orders = log_of(alloc, logs.orders)?;
    let mut trades = log_of(alloc, logs.trades)?;
    match logs.which {
        Which::Orders => orders.truncate(length),
        Which::Trades => trades.truncate(length),
    }
    Ok(QuietShelf::new(orders, trades, piece))
}

/// Checks what is answered where the log has this length, in pieces of every size from 1 to 64.
fn check_length(alloc: Global, logs: &CutLogs, length: usize, cut: &Cut) -> Result<(), RowFault> {
    for piece in 1..=64 {
        let mut shelf = cut_shelf(alloc, logs, length, piece)?;
        let answered = answer_of(alloc, logs.words, &mut shelf)?;
        answered.check(alloc, logs.words, length, cut.status, cut.report.as_bytes())?;
    }
    Ok(())
}

/// Checks what is answered at each length of the log that is cut, from 0 on.
pub(crate) fn check_cuts(alloc: Global, logs: &CutLogs) -> Result<(), RowFault> {
    let mut next = 0;
    for cut in logs.cuts {
        for length in next..=cut.last {
            check_length(alloc, logs, length, cut)?;
        }
        next = cut.last.saturating_add(1);
    }
    Ok(())
}
