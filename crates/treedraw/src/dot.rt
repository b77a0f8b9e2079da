//! Pictures as DOT, the language of Graphviz: a node is a table with a row of separators, and a
//! leaf one with a column of slots.
use crate::language::Language;

/// The forms of DOT, in which Graphviz finds the places.
pub static DOT: Language = Language {
    head: b"digraph tree {\n  graph [ordering=out, fontname=\"monospace\", label=\"",
    body: b"\"];\n  node [shape=plain, fontname=\"monospace\"];\n  \
        edge [color=\"#9198a1\", arrowsize=0.6];\n",
    end: b"}\n",
    node: b"  node~a [label=<<table border=\"0\" cellborder=\"1\" cellspacing=\"0\"><tr>",
    node_end: b"</tr></table>>];\n",
    separator: b"<td port=\"c~g\">~f</td>",
    new_separator: b"<td port=\"c~g\" bgcolor=\"#aceebb\">~f</td>",
    unbounded: b"<td port=\"c~g\">+</td>",
    retired: b"<td>retired</td>",
    edge_to_node: b"  node~a:c~b -> node~c;\n",
    edge_to_leaf: b"  node~a:c~b -> leaf~c;\n",
    leaf: b"  leaf~a [label=<<table border=\"0\" cellborder=\"1\" cellspacing=\"0\">",
    leaf_end: b"</table>>];\n",
    unused: b"<tr><td> </td></tr>",
    spent: b"<tr><td bgcolor=\"#d1d9e0\">///</td></tr>",
    newly_spent: b"<tr><td bgcolor=\"#ffcecb\">///</td></tr>",
    key: b"<tr><td>~f</td></tr>",
    new_key: b"<tr><td bgcolor=\"#aceebb\">~f</td></tr>",
    link: b"  leaf~a -> leaf~b [dir=both, style=dashed, constraint=false];\n",
    new_link: b"  leaf~a -> leaf~b [dir=both, style=dashed, constraint=false, \
        color=\"#1a7f37\"];\n",
    levels: b"  levels [label=<<table border=\"0\" cellborder=\"1\">\n<tr><td>level</td>\
        <td>arrays</td><td>keys</td><td>spent</td><td>slots</td><td>fill</td></tr>\n",
    levels_end: b"</table>>];\n",
    level: b"<tr><td>~a</td><td>~b</td><td>~c</td><td>~d</td><td>~e</td>\
        <td><table border=\"0\" cellspacing=\"0\"><tr><td bgcolor=\"#54aeff\" width=\"~f\"></td>\
        <td bgcolor=\"#d1d9e0\" width=\"~g\"></td><td width=\"~h\"></td></tr></table></td></tr>\n",
};
