//! The picture of continuous trading, drawn: the best limits of both sides by place, the trades at
//! their prices and causes, the offending place, and the book right before it.
//!
//! `extents` has the plot that the numbers of `continuous_picture` need. In it `columns` draws the
//! best limits, `trades` the trades and `offending` the offending place, each with its numbers in
//! its title. `book_layouts` puts the lines of a book on paper of their own, `books` draws them, and
//! `marks` the orders of the evidence there. `sections` has all of it. What is written is said
//! exactly.
#![tactic(auto)]

pub mod book_layouts;
pub mod books;
mod captions;
pub mod columns;
pub mod extents;
pub mod marks;
pub mod offending;
pub mod sections;
pub mod trades;
