//! Worlds, event by event.
mod control;
mod events;
mod line;
mod marks;
mod packets;
mod play;
mod sessions;
