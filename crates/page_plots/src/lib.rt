//! Pictures on paper: shapes, plots of prices, and what all pictures share.
//!
//! `measures` says where the parts of a paper lie. `axes`, `rounds` and `ticks` have straight axes
//! and the round numbers that are marked on them, and `plots` where numbers and prices lie by two
//! of them. `shapes` writes shapes at given places, `plot_lines` and `plot_axes` the lines and axes
//! of a plot, and `papers` how far the paper reaches. `sides` has the classes of the two sides and
//! their legend, `orders` the title and the badge of an order, `marks` which orders are marked, and
//! `figures` the section of a picture. `axis_laws` has a law of axes.
//!
//! Proved to the letter is what is written, and where each number lies, rounded down to whole units
//! of the paper; that a greater number lies no nearer to the start of its axis; and that an axis
//! marks all multiples of the least round number that are few enough. Not proved is that words do
//! not overlap. Each shape is written once; an axis costs a step for each of its marks, of which
//! there are at most six.
#![tactic(auto)]

pub mod axes;
pub mod axis_laws;
pub mod figures;
pub mod marks;
pub mod measures;
pub mod orders;
pub mod papers;
pub mod plot_axes;
pub mod plot_lines;
pub mod plots;
pub mod rounds;
pub mod shapes;
pub mod sides;
pub mod ticks;
