//! Tests of what logs of records give: the orders of a history with their targets and ends, ranks
//! and extremes of order lists and their sums at each price, the shares of deals, and records that
//! are kept small. What a whole log is answered shows the rest: the drafts of histories and of deals,
//! books and the trades that are written are tried by the rows of `examples`.
#![tactic(auto)]

#[cfg(test)]
mod extremes;
#[cfg(test)]
mod histories;
#[cfg(test)]
mod kept;
#[cfg(test)]
mod names;
#[cfg(test)]
mod order_lists;
#[cfg(test)]
mod ranked_orders;
#[cfg(test)]
mod shares;
