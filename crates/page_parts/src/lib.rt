//! What pages are made of, over `page_markup`, so that no name of a log can write a tag: elements
//! with a text in them, sections, tables, the page round its chief part, and the page of a verdict.
//!
//! `elements` has elements and sections, `cells` the cells and headings of tables, and `documents`
//! the page round its chief part. `wording` says what each record is to a finding, and `evidence`
//! has the table of what shows one. `sentences` has the answer in words, `shell_words` the words of
//! a command as they are typed into a shell, `repeats` how to see the verdict again, and
//! `verdict_pages` the page, to which the picture is handed as the section that has it.
//!
//! What is written is proved to the letter, but the style: of it, that no byte is written as an
//! entity, and that it names nothing outside of the page. How a page looks, and which colour anything
//! has, is said by no contract. Each part is written once, and copied once into each element that it
//! stands in. `laws` says that a shell reads the words of a command as they were.
#![tactic(auto)]

pub mod cells;
pub mod documents;
pub mod elements;
pub mod evidence;
pub mod laws;
pub mod repeats;
pub mod sentences;
pub mod shell_words;
mod style;
pub mod verdict_pages;
pub mod wording;
