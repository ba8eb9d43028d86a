//! Listings of objects: each word as text, with the symbols that stand there.

mod lines;
mod names;
mod object_listing;

pub use object_listing::listing;
