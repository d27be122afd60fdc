//! One file for each crate whose calls are tested.
mod audits;
mod ends;
mod files;
mod frames;
mod journals;
mod leaders;
mod lines;
mod listed_frames;
mod outside;
