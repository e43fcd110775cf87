//! Frames of messages: found in whole bytes and in pieces, refused, and written.
mod checks;
mod framer;
mod frames;
mod headers;
mod vectors;
mod writing;
