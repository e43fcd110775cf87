//! Days of FIX messages in another dress, read in pieces: the bodies of their messages, and the first
//! bad one.
mod framed;
mod joined_bodies;
mod lines;
