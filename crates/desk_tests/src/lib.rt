//! Tests of `desk` that no example can say, since a file cannot: what a row of a whole call is and
//! what checks it (`checks`), and the rows: every cut in every piece, every call that fails, each
//! dress, logs over the ends of blocks and of the greatest length, many deals that offend, pages
//! without a picture, and what words ask for. The other rows are the examples of `desk_examples`.
#![tactic(auto)]

#[cfg(test)]
mod checks;
#[cfg(test)]
mod cut_rows;
#[cfg(test)]
mod dress_rows;
#[cfg(test)]
mod fault_rows;
#[cfg(test)]
mod log_rows;
#[cfg(test)]
mod long_rows;
pub mod long_shelf;
#[cfg(test)]
mod many_deals;
#[cfg(test)]
mod page_rows;
#[cfg(test)]
mod plain_cuts;
#[cfg(test)]
mod plain_rows;
#[cfg(test)]
mod word_rows;
