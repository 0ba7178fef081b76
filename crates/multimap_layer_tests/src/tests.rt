//! The tests of the slot list, of the tape, and of a walk's step along links.
mod ample;
mod cell_uses;
mod cells;
mod forms;
mod moved;
mod refused;
mod slots;
mod tape_uses;
mod uses;
