//! Elements that are written once a picture or once a row.

use arrayvec::ArrayVec;

/// The most bytes of an element: 600, and a task's name.
pub(crate) const ELEMENT_LEN: usize = 1_112;

/// An element as it is built up.
pub(crate) type Element = ArrayVec<u8, ELEMENT_LEN>;

/// The most bytes of an element that is offered as a text.
pub(crate) const TEXT_LEN: usize = 8_192;
