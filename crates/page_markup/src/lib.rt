//! Markup: a page in HTML, with pictures in SVG, as text.
//!
//! `escapes` writes text so that nothing in it is read as markup, whoever chose it. `words` has the
//! elements and attributes that pages use, and `markup` puts elements and texts together: a value
//! of its type is well nested, since an element writes its end. `laws` has what holds of every
//! text and every page.
#![tactic(auto)]

pub mod escapes;
pub mod laws;
pub mod markup;
pub mod words;
