//! The picture of a call, drawn: each order a bar, as wide as its quantity and filled as far as it
//! traded, bids above their limit and asks below, and the volume as a line.
//!
//! `extents` has the plot that the numbers of `call_picture` need, `bars` puts its steps into it, and
//! `layouts` all parts. The other modules draw what is placed, and say exactly what they write:
//! `steps` the steps, `marks` the orders of the evidence, `lines` the volume and the price,
//! `captions` what stands below, and `sections` all of it.
#![tactic(auto)]

pub mod bars;
pub mod captions;
pub mod extents;
pub mod layouts;
pub mod lines;
pub mod marks;
pub mod sections;
pub mod steps;
