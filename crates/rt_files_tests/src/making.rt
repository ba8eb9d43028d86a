//! How files are made, on a disk that stops or fails at each call in turn.

mod disk;
mod tests;
