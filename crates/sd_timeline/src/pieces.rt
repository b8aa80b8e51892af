//! The pieces of which the picture is made. Each function appends a text. Where memory runs out it may have appended a part
//! of it.

ghost use Rattle.std.specs.Prelude.{◌≡◌, ◌++◌, OnOk, flat_map};
ghost use Rattle.sd_timeline.specs.Parts.{part_text};
ghost use Rattle.sd_timeline.specs.Pieces.{bar_end, bar_start, cover, grid_line, label_end, label_start, number_label, path_end, path_start, word_label};

use crate::parts::{Part, put_parts};
use std::alloc::AllocError;

/// `<rect class=".." x=".." y=".." width=".." height=".."><title>`, to which the words that are shown on it are appended.
#[tactic(auto, unfolding(crate::specs::Pieces::bar_start, crate::specs::Pieces::box_text, crate::specs::Pieces::attribute))]
pub(crate) fn put_bar_start(
    class: &[u8],
    x: u64,
    y: u64,
    width: u64,
    height: u64,
    out: &mut Vec<u8>,
) -> Result<(), AllocError>
    ensures { OnOk result (out.new.items ≡ out.old.items ++ bar_start class.now x y width height) }
{
    let parts = [
        Part::Text(b"<rect class=\""),
        Part::Text(class),
        Part::Text(b"\" x=\""),
        Part::Number(x),
        Part::Text(b"\" y=\""),
        Part::Number(y),
        Part::Text(b"\" width=\""),
        Part::Number(width),
        Part::Text(b"\" height=\""),
        Part::Number(height),
        Part::Text(b"\"><title>"),
    ];
    put_parts(&parts, out)
}

/// `</title></rect>`
pub(crate) fn put_bar_end(out: &mut Vec<u8>) -> Result<(), AllocError>
    ensures { OnOk result (out.new.items ≡ out.old.items ++ bar_end) }
{
    out.extend_from_slice(b"</title></rect>\n")
}

/// A rectangle on which nothing is shown.
#[tactic(auto, unfolding(crate::specs::Pieces::cover, crate::specs::Pieces::box_text, crate::specs::Pieces::attribute))]
pub(crate) fn put_cover(
    class: &[u8],
    x: u64,
    y: u64,
    width: u64,
    height: u64,
    out: &mut Vec<u8>,
) -> Result<(), AllocError>
    ensures { OnOk result (out.new.items ≡ out.old.items ++ cover class.now x y width height) }
{
    let parts = [
        Part::Text(b"<rect class=\""),
        Part::Text(class),
        Part::Text(b"\" x=\""),
        Part::Number(x),
        Part::Text(b"\" y=\""),
        Part::Number(y),
        Part::Text(b"\" width=\""),
        Part::Number(width),
        Part::Text(b"\" height=\""),
        Part::Number(height),
        Part::Text(b"\"/>\n"),
    ];
    put_parts(&parts, out)
}

/// `<text class=".." x=".." y="..">`
#[tactic(auto, unfolding(crate::specs::Pieces::label_start, crate::specs::Pieces::attribute))]
pub(crate) fn put_label_start(
    class: &[u8],
    x: u64,
    y: u64,
    out: &mut Vec<u8>,
) -> Result<(), AllocError>
    ensures { OnOk result (out.new.items ≡ out.old.items ++ label_start class.now x y) }
{
    let parts = [
        Part::Text(b"<text class=\""),
        Part::Text(class),
        Part::Text(b"\" x=\""),
        Part::Number(x),
        Part::Text(b"\" y=\""),
        Part::Number(y),
        Part::Text(b"\">"),
    ];
    put_parts(&parts, out)
}

/// `</text>`
pub(crate) fn put_label_end(out: &mut Vec<u8>) -> Result<(), AllocError>
    ensures { OnOk result (out.new.items ≡ out.old.items ++ label_end) }
{
    out.extend_from_slice(b"</text>\n")
}

/// A label with these words.
pub(crate) fn put_label(
    class: &[u8],
    x: u64,
    y: u64,
    words: &[Part],
    out: &mut Vec<u8>,
) -> Result<(), AllocError>
    ensures { OnOk result (out.new.items ≡ out.old.items ++ (label_start class.now x y ++ flat_map part_text words.now ++ label_end)) }
{
    put_label_start(class, x, y, out)?;
    put_parts(words, out)?;
    put_label_end(out)
}

/// A label with a word.
#[tactic(auto, unfolding(crate::specs::Pieces::word_label))]
pub(crate) fn put_word_label(
    class: &[u8],
    x: u64,
    y: u64,
    word: &[u8],
    out: &mut Vec<u8>,
) -> Result<(), AllocError>
    ensures { OnOk result (out.new.items ≡ out.old.items ++ word_label class.now x y word.now) }
{
    put_label(class, x, y, &[Part::Text(word)], out)
}

/// A label with a word and a number behind it.
#[tactic(auto, unfolding(crate::specs::Pieces::number_label))]
pub(crate) fn put_number_label(
    class: &[u8],
    x: u64,
    y: u64,
    word: &[u8],
    n: u64,
    out: &mut Vec<u8>,
) -> Result<(), AllocError>
    ensures { OnOk result (out.new.items ≡ out.old.items ++ number_label class.now x y word.now n) }
{
    put_label(class, x, y, &[Part::Text(word), Part::Number(n)], out)
}

/// A straight line.
#[tactic(auto, unfolding(crate::specs::Pieces::grid_line, crate::specs::Pieces::ends_text, crate::specs::Pieces::attribute))]
pub(crate) fn put_line(
    class: &[u8],
    from: (u64, u64),
    to: (u64, u64),
    out: &mut Vec<u8>,
) -> Result<(), AllocError>
    ensures { OnOk result (out.new.items ≡ out.old.items ++ grid_line class.now from to) }
{
    let parts = [
        Part::Text(b"<line class=\""),
        Part::Text(class),
        Part::Text(b"\" x1=\""),
        Part::Number(from.0),
        Part::Text(b"\" y1=\""),
        Part::Number(from.1),
        Part::Text(b"\" x2=\""),
        Part::Number(to.0),
        Part::Text(b"\" y2=\""),
        Part::Number(to.1),
        Part::Text(b"\"/>\n"),
    ];
    put_parts(&parts, out)
}

/// An upright line from one height to another, up to the words that are shown on it.
#[tactic(auto, unfolding(crate::specs::Pieces::path_start, crate::specs::Pieces::path_ends))]
pub(crate) fn put_path_start(
    class: &[u8],
    column: u64,
    heights: (u64, u64),
    out: &mut Vec<u8>,
) -> Result<(), AllocError>
    ensures { OnOk result (out.new.items ≡ out.old.items ++ path_start class.now column heights) }
{
    let parts = [
        Part::Text(b"<path class=\""),
        Part::Text(class),
        Part::Text(b"\" d=\"M "),
        Part::Number(column),
        Part::Text(b" "),
        Part::Number(heights.0),
        Part::Text(b" V "),
        Part::Number(heights.1),
        Part::Text(b"\"><title>"),
    ];
    put_parts(&parts, out)
}

/// The end of such a line.
pub(crate) fn put_path_end(out: &mut Vec<u8>) -> Result<(), AllocError>
    ensures { OnOk result (out.new.items ≡ out.old.items ++ path_end) }
{
    out.extend_from_slice(b"</title></path>\n")
}
