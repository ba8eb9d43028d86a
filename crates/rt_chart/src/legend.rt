//! What the marks and the bars mean, below a picture.

ghost use Rattle.std.specs.Prelude.{◌≡◌, ◌≤◌, ◌++◌, length};
ghost use Rattle.rt_chart.specs.ChartText as texts;

use crate::look::MarkStyle;

/// The marks of the key.
const KEY: &[u8] = b"<g transform=\"translate(0,22)\">
<g fill=\"none\" stroke=\"#222\" stroke-width=\"1.5\">
<path class=\"key-fresh\" d=\"M4,26v-12l-3,4m3,-4l3,4\" stroke=\"#1a7f37\"/>
<path class=\"key-kept\" d=\"M104,26v-3m0,-3v-6l-3,4m3,-4l3,4\" stroke=\"#9a6700\"/>
<path class=\"key-deadline\" d=\"M204,14v12l-3,-4m3,4l3,-4\" stroke=\"#57606a\"/>
<path class=\"key-postponed\" d=\"M294,24l-4,-6h8z\" fill=\"#bc6c00\" stroke=\"none\"/>
<path class=\"key-yield\" d=\"M424,16l4,4l-4,4l-4,-4z\"/>
<path class=\"key-sleep\" d=\"M494,17a3,3,0,1,0,1,0z\" stroke=\"#1f5fa8\"/>
<path class=\"key-end\" d=\"M4,37h3v6h-6v-6z\" fill=\"#222\"/>
<path class=\"key-fault\" d=\"M64,40l-4,-4l8,8l-4,-4l4,-4l-8,8\" stroke=\"#c0262d\" stroke-width=\"2.5\"/>
<path class=\"key-reserve\" d=\"M124,44h-4l4,-7l4,7z\" stroke=\"#6e40c9\"/>
<path class=\"key-refused\" d=\"M254,37h-4l4,7l4,-7z\" stroke=\"#6e40c9\"/>
";

/// The same where marks are lines.
const LINE_KEY: &[u8] = b"<g transform=\"translate(0,22)\">
<g fill=\"none\" stroke=\"#222\" stroke-width=\"1.5\">
<path class=\"key-fresh\" d=\"M4,25v-9\" stroke=\"#1a7f37\"/>
<path class=\"key-kept\" d=\"M104,25v-3m0,-3v-3\" stroke=\"#9a6700\"/>
<path class=\"key-deadline\" d=\"M204,14v12\" stroke=\"#57606a\"/>
<path class=\"key-postponed\" d=\"M294,22v-4h1v4\" fill=\"#bc6c00\" stroke=\"none\"/>
<path class=\"key-yield\" d=\"M424,18v5\"/>
<path class=\"key-sleep\" d=\"M494,18v5\" stroke=\"#1f5fa8\"/>
<path class=\"key-end\" d=\"M4,37h3v6h-6v-6z\" fill=\"#222\"/>
<path class=\"key-fault\" d=\"M64,40l-4,-4l8,8l-4,-4l4,-4l-8,8\" stroke=\"#c0262d\" stroke-width=\"2.5\"/>
<path class=\"key-reserve\" d=\"M124,38v5\" stroke=\"#6e40c9\"/>
<path class=\"key-refused\" d=\"M254,38v2m0,1v2\" stroke=\"#6e40c9\"/>
";

/// What they mean, the bars, and the end of the picture.
pub(crate) const KEY_END: &[u8] = b"</g>
<text x=\"12\" y=\"24\">fresh wake</text>
<text x=\"114\" y=\"24\">kept wake</text>
<text x=\"214\" y=\"24\">deadline</text>
<text x=\"304\" y=\"24\">budget used up</text>
<text x=\"434\" y=\"24\">yield</text>
<text x=\"504\" y=\"24\">sleep</text>
<text x=\"14\" y=\"44\">end</text>
<text x=\"74\" y=\"44\">fault</text>
<text x=\"134\" y=\"44\">reserve granted</text>
<text x=\"264\" y=\"44\">reserve refused</text>
<rect class=\"key-wait\" x=\"384\" y=\"38\" width=\"16\" height=\"4\" fill=\"#cbd5e1\"/><text x=\"406\" y=\"44\">waits</text>
<rect class=\"key-over\" x=\"454\" y=\"34\" width=\"16\" height=\"12\" fill=\"#f0a030\"/><text x=\"476\" y=\"44\">over the period (no promise)</text>
</g>
</g>
</g>
</svg>
";

/// The key up to the end of its marks.
pub(crate) fn key(style: MarkStyle) -> &'static [u8]
    ensures text { result.now ++ KEY_END.now ≡ texts.closing_text style }
    ensures short { length result.now ≤ 2000 }
{
    match style {
        MarkStyle::Shapes => KEY,
        MarkStyle::Lines | MarkStyle::LowLines => LINE_KEY,
    }
}
