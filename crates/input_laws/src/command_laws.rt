//! Laws of the simple command by which the words of a call are read with `clap`.
