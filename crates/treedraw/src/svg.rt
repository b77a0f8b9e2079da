//! Pictures as SVG: nodes as rows of separators, over leaves as columns of slots.
use crate::language::Language;

/// The forms of SVG, with the colours of a system that is light and of one that is dark.
pub static SVG: Language = Language {
    head: b"<svg xmlns=\"http://www.w3.org/2000/svg\" width=\"~a\" height=\"~b\" \
        viewBox=\"0 0 ~a ~b\">
<style>
text { font: 12px monospace; text-anchor: middle; fill: #1f2328 }
.told { text-anchor: start }
.box { fill: #ddf4ff; stroke: #54aeff }
.new { fill: #aceebb; stroke: #1a7f37 }
.free { fill: none; stroke: #9198a1 }
.spent { fill: url(#spent); stroke: #9198a1 }
.gone { fill: url(#gone); stroke: #cf222e }
.edge { fill: none; stroke: #9198a1 }
.link { fill: none; stroke: #59636e; stroke-dasharray: 3 2 }
.joined { fill: none; stroke: #1a7f37; stroke-width: 2 }
@media (prefers-color-scheme: dark) {
text { fill: #e6edf3 }
.box { fill: #0c2d6b; stroke: #388bfd }
.new { fill: #0f3d1d; stroke: #3fb950 }
}
</style>
<defs>
<pattern id=\"spent\" width=\"5\" height=\"5\" patternUnits=\"userSpaceOnUse\" \
        patternTransform=\"rotate(45)\"><path d=\"M0 0V5\" stroke=\"#9198a1\" \
        stroke-width=\"3\"/></pattern>
<pattern id=\"gone\" width=\"5\" height=\"5\" patternUnits=\"userSpaceOnUse\" \
        patternTransform=\"rotate(45)\"><path d=\"M0 0V5\" stroke=\"#cf222e\" \
        stroke-width=\"3\"/></pattern>
</defs>
<text x=\"20\" y=\"20\" class=\"told\">",
    body: b"</text>\n",
    end: b"</svg>\n",
    node: b"",
    node_end: b"",
    separator: b"<rect x=\"~a\" y=\"~b\" width=\"~c\" height=\"18\" class=\"box\"/>\
        <text x=\"~d\" y=\"~e\">~f</text>\n",
    new_separator: b"<rect x=\"~a\" y=\"~b\" width=\"~c\" height=\"18\" class=\"new\"/>\
        <text x=\"~d\" y=\"~e\">~f</text>\n",
    unbounded: b"<rect x=\"~a\" y=\"~b\" width=\"~c\" height=\"18\" class=\"box\"/>\
        <text x=\"~d\" y=\"~e\">+</text>\n",
    retired: b"<rect x=\"~a\" y=\"~b\" width=\"~c\" height=\"18\" class=\"spent\"/>\n",
    edge_to_node: b"<path d=\"M~d ~eL~f ~g\" class=\"edge\"/>\n",
    edge_to_leaf: b"<path d=\"M~d ~eL~f ~g\" class=\"edge\"/>\n",
    leaf: b"",
    leaf_end: b"",
    unused: b"<rect x=\"~a\" y=\"~b\" width=\"~c\" height=\"18\" class=\"free\"/>\n",
    spent: b"<rect x=\"~a\" y=\"~b\" width=\"~c\" height=\"18\" class=\"spent\"/>\n",
    newly_spent: b"<rect x=\"~a\" y=\"~b\" width=\"~c\" height=\"18\" class=\"gone\"/>\n",
    key: b"<rect x=\"~a\" y=\"~b\" width=\"~c\" height=\"18\" class=\"box\"/>\
        <text x=\"~d\" y=\"~e\">~f</text>\n",
    new_key: b"<rect x=\"~a\" y=\"~b\" width=\"~c\" height=\"18\" class=\"new\"/>\
        <text x=\"~d\" y=\"~e\">~f</text>\n",
    link: b"<path d=\"M~c ~dH~e\" class=\"link\"/>\n",
    new_link: b"<path d=\"M~c ~dH~e\" class=\"joined\"/>\n",
    levels: b"",
    levels_end: b"",
    level: b"<text x=\"20\" y=\"~i\" class=\"told\">level ~a: ~b arrays, ~c keys, \
        ~d spent of ~e slots</text>\n\
        <rect x=\"20\" y=\"~j\" width=\"400\" height=\"14\" class=\"free\"/>\
        <rect x=\"20\" y=\"~j\" width=\"~f\" height=\"14\" class=\"box\"/>\
        <rect x=\"~k\" y=\"~j\" width=\"~g\" height=\"14\" class=\"spent\"/>\n",
};
