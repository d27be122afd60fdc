//! Networks as files, and what happens in them as tables of lines.
mod networks;
mod nodes;
mod words;
mod worlds;
