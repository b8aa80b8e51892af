//! The colours, lines, letters and patterns of the picture, and its white page.

ghost use Rattle.std.specs.Prelude.{◌≡◌, ◌++◌, OnOk};
ghost use Rattle.sd_timeline.specs.Style.{page, patterns, style};

use std::alloc::AllocError;

const STYLE: &[u8] = b"<style>
text{font:12px sans-serif;fill:#15202b}
.head{font-size:15px;font-weight:bold}
.name{text-anchor:end;font-weight:bold}
.side{text-anchor:end;fill:#55626f}
.tick{text-anchor:middle;fill:#55626f}
.note{fill:#55626f}
.closes{text-anchor:end;fill:#55626f}
.on{fill:#fff}
.held{fill:#7a4b00}
.own,.inherited{paint-order:stroke;stroke:#fff;stroke-width:3px}
.inherited,.dead{font-weight:bold;fill:#b3261e}
.ring{font-weight:bold;fill:#6b3fa0}
.grid{stroke:#dde3e8}
.base{stroke:#8b95a1}
.will{fill:none;stroke:#15202b;stroke-width:2;marker-end:url(#tip)}
.wake{fill:none;stroke:#3a6b8f;stroke-width:1.2;marker-end:url(#thin-tip)}
.moment{stroke:#15202b;stroke-width:1.5}
.run{stroke:#fff}
.ready{fill:#f0b429;stroke:#8a5a00}
.wait{fill:url(#wait);stroke:#b3261e}
.sleep{fill:#5f7182}
.nap{fill:url(#nap)}
.end{fill:#b4bdc6}
.stop{fill:#5f7182}
.hold{fill:#fbe9c6;stroke:#7a4b00;stroke-width:.8}
.raised{fill:#b3261e}
.level{fill:none;pointer-events:all}
.page,.plate{fill:#fff}
.gap{fill:#fff;stroke:#8b95a1;stroke-dasharray:3 3}
.dots{fill:url(#dots)}
.rising{fill:url(#rising)}
.falling{fill:url(#falling)}
.plate,.stop,.raised,.dots,.rising,.falling,text{pointer-events:none}
.blue{fill:#124a7e}
.teal{fill:#0b7568}
.purple{fill:#5a2d91}
.green{fill:#3c7a26}
.slate{fill:#37474f}
.pink{fill:#a93f8d}
.brown{fill:#5b3a1e}
.sky{fill:#1b74b0}
.blue-stripes{fill:url(#blue);stroke:#124a7e}
.teal-stripes{fill:url(#teal);stroke:#0b7568}
.purple-stripes{fill:url(#purple);stroke:#5a2d91}
.green-stripes{fill:url(#green);stroke:#3c7a26}
.slate-stripes{fill:url(#slate);stroke:#37474f}
.pink-stripes{fill:url(#pink);stroke:#a93f8d}
.brown-stripes{fill:url(#brown);stroke:#5b3a1e}
.sky-stripes{fill:url(#sky);stroke:#1b74b0}
</style>
";

const PATTERNS: &[u8] = b"<defs>
<pattern id=\"blue\" width=\"8\" height=\"8\" patternUnits=\"userSpaceOnUse\"><path fill=\"#fff\" d=\"M0 0H8V8H0z\"/><path stroke=\"#124a7e\" stroke-width=\"3\" d=\"M-2 2L2 -2M0 8L8 0M6 10L10 6\"/></pattern>
<pattern id=\"teal\" width=\"8\" height=\"8\" patternUnits=\"userSpaceOnUse\"><path fill=\"#fff\" d=\"M0 0H8V8H0z\"/><path stroke=\"#0b7568\" stroke-width=\"3\" d=\"M-2 2L2 -2M0 8L8 0M6 10L10 6\"/></pattern>
<pattern id=\"purple\" width=\"8\" height=\"8\" patternUnits=\"userSpaceOnUse\"><path fill=\"#fff\" d=\"M0 0H8V8H0z\"/><path stroke=\"#5a2d91\" stroke-width=\"3\" d=\"M-2 2L2 -2M0 8L8 0M6 10L10 6\"/></pattern>
<pattern id=\"green\" width=\"8\" height=\"8\" patternUnits=\"userSpaceOnUse\"><path fill=\"#fff\" d=\"M0 0H8V8H0z\"/><path stroke=\"#3c7a26\" stroke-width=\"3\" d=\"M-2 2L2 -2M0 8L8 0M6 10L10 6\"/></pattern>
<pattern id=\"slate\" width=\"8\" height=\"8\" patternUnits=\"userSpaceOnUse\"><path fill=\"#fff\" d=\"M0 0H8V8H0z\"/><path stroke=\"#37474f\" stroke-width=\"3\" d=\"M-2 2L2 -2M0 8L8 0M6 10L10 6\"/></pattern>
<pattern id=\"pink\" width=\"8\" height=\"8\" patternUnits=\"userSpaceOnUse\"><path fill=\"#fff\" d=\"M0 0H8V8H0z\"/><path stroke=\"#a93f8d\" stroke-width=\"3\" d=\"M-2 2L2 -2M0 8L8 0M6 10L10 6\"/></pattern>
<pattern id=\"brown\" width=\"8\" height=\"8\" patternUnits=\"userSpaceOnUse\"><path fill=\"#fff\" d=\"M0 0H8V8H0z\"/><path stroke=\"#5b3a1e\" stroke-width=\"3\" d=\"M-2 2L2 -2M0 8L8 0M6 10L10 6\"/></pattern>
<pattern id=\"sky\" width=\"8\" height=\"8\" patternUnits=\"userSpaceOnUse\"><path fill=\"#fff\" d=\"M0 0H8V8H0z\"/><path stroke=\"#1b74b0\" stroke-width=\"3\" d=\"M-2 2L2 -2M0 8L8 0M6 10L10 6\"/></pattern>
<pattern id=\"wait\" width=\"6\" height=\"6\" patternUnits=\"userSpaceOnUse\"><path fill=\"#b3261e\" d=\"M0 0H6V6H0z\"/><path stroke=\"#eab5b1\" stroke-width=\"1.6\" d=\"M-1 5L1 7M0 0L6 6M5 -1L7 1\"/></pattern>
<pattern id=\"nap\" width=\"6\" height=\"6\" patternUnits=\"userSpaceOnUse\"><path fill=\"#5f7182\" d=\"M0 0H3V6H0z\"/></pattern>
<pattern id=\"dots\" width=\"6\" height=\"6\" patternUnits=\"userSpaceOnUse\"><circle cx=\"3\" cy=\"3\" r=\"1.2\" fill=\"#fff\" fill-opacity=\".7\"/></pattern>
<pattern id=\"rising\" width=\"8\" height=\"8\" patternUnits=\"userSpaceOnUse\"><path stroke=\"#fff\" stroke-opacity=\".55\" stroke-width=\"1.3\" d=\"M-2 2L2 -2M0 8L8 0M6 10L10 6\"/></pattern>
<pattern id=\"falling\" width=\"8\" height=\"8\" patternUnits=\"userSpaceOnUse\"><path stroke=\"#fff\" stroke-opacity=\".55\" stroke-width=\"1.3\" d=\"M-2 6L2 10M0 0L8 8M6 -2L10 2\"/></pattern>
<marker id=\"tip\" markerWidth=\"5\" markerHeight=\"5\" refX=\"5\" refY=\"2.5\" orient=\"auto\"><path fill=\"#15202b\" d=\"M0 0L5 2.5L0 5z\"/></marker>
<marker id=\"thin-tip\" markerWidth=\"6\" markerHeight=\"6\" refX=\"6\" refY=\"3\" orient=\"auto\"><path fill=\"#3a6b8f\" d=\"M0 0L6 3L0 6z\"/></marker>
</defs>
";

fn put_text(text: &[u8], out: &mut Vec<u8>) -> Result<(), AllocError>
    ensures { OnOk result (out.new.items ≡ out.old.items ++ text.now) }
{
    out.extend_from_slice(text)
}

/// The letters, of which none is smaller than 12 pixels, the lines, the forms of what threads do, and the colours of threads.
#[tactic(auto, unfolding(crate::specs::Style::style, crate::specs::Style::letters, crate::specs::Style::lines, crate::specs::Style::forms, crate::specs::Style::colours, crate::specs::Style::stripes))]
pub(crate) fn put_style(out: &mut Vec<u8>) -> Result<(), AllocError>
    ensures { OnOk result (out.new.items ≡ out.old.items ++ style) }
{
    put_text(STYLE, out)
}

/// The patterns of bars, and the heads of arrows.
#[tactic(auto, unfolding(crate::specs::Style::patterns, crate::specs::Style::thread_patterns, crate::specs::Style::state_patterns, crate::specs::Style::textures, crate::specs::Style::tips))]
pub(crate) fn put_patterns(out: &mut Vec<u8>) -> Result<(), AllocError>
    ensures { OnOk result (out.new.items ≡ out.old.items ++ patterns) }
{
    put_text(PATTERNS, out)
}

/// The white page.
#[tactic(auto, unfolding(crate::specs::Style::page))]
pub(crate) fn put_page(out: &mut Vec<u8>) -> Result<(), AllocError>
    ensures { OnOk result (out.new.items ≡ out.old.items ++ page) }
{
    out.extend_from_slice(b"<rect class=\"page\" width=\"100%\" height=\"100%\"/>\n")
}
