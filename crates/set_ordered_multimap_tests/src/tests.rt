//! Runs of calls, random calls, look-ups by texts, refused requests, room, other calls, and proved callers.
mod callers;
mod calls;
mod joined;
mod lists;
mod popped_keys;
mod queries;
mod random;
mod refused;
mod room;
mod runs;
mod sets;
mod sorted;
