//! What a picture is drawn by.

use crate::style::Style;
use rt_drawing::Window;

/// How marks are drawn.
#[derive(Clone, Copy)]
pub(crate) enum MarkStyle {
    /// As arrows, rings and the like.
    Shapes,
    /// As plain lines, where there are many.
    Lines,
    /// As plain lines of low rows.
    LowLines,
}

/// The window of a picture, its style, how its marks are drawn, and how many bytes its longest label has.
#[derive(Clone, Copy)]
pub(crate) struct Look {
    pub(crate) window: Window,
    pub(crate) style: Style,
    pub(crate) marks: MarkStyle,
    pub(crate) labels: u32,
}
