//! Where the rows of a picture lie, and how wide and high it is.

ghost use Rattle.std.specs.Prelude.{◌≡◌, ◌+◌, ◌*◌, ◌^◌, ◌<◌, ◌≤◌, length};
ghost use Rattle.rt_chart.specs.Rows as rows;

use crate::scale::Scale;
use crate::style::Style;

/// How high a row is.
pub(crate) fn row_height(style: &Style) -> u64
    ensures value { result ≡ rows.row_height style.now }
    ensures few { result ≤ 56 }
{
    if style.is_compact { 20 } else { 56 }
}

/// How high the rows of so many tasks are together.
pub(crate) fn rows_height(style: &Style, count: u32) -> u64
    ensures { result ≡ rows.rows_height style.now count }
{
    row_height(style) * u64::from(count)
}

/// Where row `row` begins; where there are so many, the axis does.
pub(crate) fn row_top(style: &Style, row: u32) -> u64
    ensures { result ≡ rows.row_top style.now row }
{
    10 + rows_height(style, row)
}

/// How far below the top of its row the line is on which a task stands.
pub(crate) fn base_top(style: &Style) -> u64
    ensures { result ≡ rows.base_top style.now }
{
    if style.is_compact { 16 } else { 42 }
}

/// How far below the top of its row the line is on which words stand.
pub(crate) fn words_top(style: &Style) -> u64
    ensures { result ≡ rows.words_top style.now }
{
    if style.is_compact { 14 } else { 40 }
}

/// Whether a picture of so many tasks is tall, so that the axis stands above its rows too.
pub(crate) fn is_tall(count: u32) -> bool
    ensures { result ≡ rows.is_tall count }
{
    count > 12
}

/// Where a picture of so many tasks begins.
pub(crate) fn top(count: u32) -> &'static [u8]
    ensures text { result.now ≡ rows.top_text count }
    ensures short { length result.now ≤ 3 }
{
    if is_tall(count) { b"-24" } else { b"0" }
}

/// How high a picture of so many tasks is.
pub(crate) fn whole_height(style: &Style, count: u32) -> u64
    ensures { result ≡ rows.whole_height style.now count }
{
    let head_room = if is_tall(count) { 24 } else { 0 };
    head_room + row_top(style, count) + 80
}

/// Whether the ticks of a picture are so wide that tasks are named at the right again.
pub(crate) fn is_wide(scale: &Scale) -> bool
    ensures { result ≡ rows.is_wide scale.now.look }
{
    scale.width > 1_600
}

/// How wide the column of the labels is.
pub(crate) fn label_room(scale: &Scale) -> u64
    ensures value { result ≡ rows.label_room scale.now.look }
    ensures few { result < 2 ^ 36 }
    ensures some { 20 ≤ result }
{
    7 * u64::from(scale.look.labels) + 20
}

/// How wide a picture is.
pub(crate) fn whole_width(scale: &Scale) -> u64
    ensures { result ≡ rows.whole_width scale.now.look }
{
    let left = label_room(scale);
    let right = if is_wide(scale) { 190 + left } else { 190 };
    left + scale.width + right
}
