//! Draws a tree part by part, in a language for pictures.
use crate::language::Language;
use crate::levels::level_of;
use crate::places::{MARGIN, Places, of_level, size_of_bars};
use crate::rows::KeyRow;
use crate::shape::{LeafShape, NodeShape, Shape};
use crate::text::{MOST_SHOWN, put, put_line};
use std::alloc::AllocError;

// The most pairs of a tree that is drawn whole.
const MOST_PAIRS: usize = 2_000;

/// Appends a picture of the tree that a line left: the whole tree, or of a large one how full each
/// level is.
///
/// Returns `Err` if an allocation fails; part of the picture may have been appended.
pub fn draw(
    picture: &mut Vec<u8>,
    language: &Language,
    before: &Shape,
    now: &Shape,
    line: &[u8],
) -> Result<(), AllocError> {
    if now.pairs > MOST_PAIRS {
        draw_levels(picture, language, now, line)
    } else {
        draw_tree(picture, language, before, now, line)
    }
}

// Appends a tree. What the line changed is green, and what it removed is red.
fn draw_tree(
    picture: &mut Vec<u8>,
    language: &Language,
    before: &Shape,
    now: &Shape,
    line: &[u8],
) -> Result<(), AllocError> {
    let places = Places::of(now);
    let size = (places.leaf(now.leaves.len() as u64), places.height());
    begin(picture, language, line, size)?;
    for node in &now.nodes {
        draw_node(
            picture,
            language,
            places,
            node,
            &before.keys_of_node(node.id),
        )?;
        draw_edges(picture, language, places, node)?;
    }
    for leaf in &now.leaves {
        draw_leaf(
            picture,
            language,
            places,
            leaf,
            &before.keys_of_leaf(leaf.id),
        )?;
    }
    draw_links(picture, language, places, before, now)?;
    put(picture, language.end, &[])
}

// Appends how full each level of a tree is, the root first.
fn draw_levels(
    picture: &mut Vec<u8>,
    language: &Language,
    now: &Shape,
    line: &[u8],
) -> Result<(), AllocError> {
    begin(picture, language, line, size_of_bars(now.depth))?;
    put(picture, language.levels, &[])?;
    for above in 0..=now.depth {
        let level = now.depth.saturating_sub(above);
        put(
            picture,
            language.level,
            &of_level(level, above, level_of(now, level)),
        )?;
    }
    put(picture, language.levels_end, &[])?;
    put(picture, language.end, &[])
}

// Appends the head of a picture, which has room for the line that it is of.
fn begin(
    picture: &mut Vec<u8>,
    language: &Language,
    line: &[u8],
    (width, height): (u64, u64),
) -> Result<(), AllocError> {
    let shown = line.len().min(MOST_SHOWN) as u64;
    let width = width.max(shown.saturating_mul(8)).saturating_add(MARGIN);
    put(picture, language.head, &[width, height])?;
    put_line(picture, line)?;
    put(picture, language.body, &[])
}

// Appends a node as a row of separators, with a cell over the unbounded child.
fn draw_node(
    picture: &mut Vec<u8>,
    language: &Language,
    places: Places,
    node: &NodeShape,
    old: &KeyRow,
) -> Result<(), AllocError> {
    put(picture, language.node, &[node.number])?;
    for place in 0..node.children.count() {
        let key = node.keys.key_at(place);
        let numbers = places.of_separator(node, place, key.unwrap_or(0));
        put(picture, language.separator_of(key, old), &numbers)?;
    }
    if node.children.count() == 0 {
        put(picture, language.retired, &places.of_separator(node, 0, 0))?;
    }
    put(picture, language.node_end, &[])
}

// Appends the edges from the cells of a node to its children.
fn draw_edges(
    picture: &mut Vec<u8>,
    language: &Language,
    places: Places,
    node: &NodeShape,
) -> Result<(), AllocError> {
    let form = language.edge_below(node.level);
    for place in 0..node.children.count() {
        if let Some(child) = node.children.child_at(place) {
            put(picture, form, &places.of_edge(node, place, child))?;
        }
    }
    Ok(())
}

// Appends a leaf as a column of its slots in order of arrival.
fn draw_leaf(
    picture: &mut Vec<u8>,
    language: &Language,
    places: Places,
    leaf: &LeafShape,
    old: &KeyRow,
) -> Result<(), AllocError> {
    put(picture, language.leaf, &[leaf.number])?;
    for number in 0..places.slots() {
        let slot = leaf.keys.slot(number);
        let form = language.slot_of(slot, old.slot(number));
        put(picture, form, &places.of_slot(leaf, number, slot.key()))?;
    }
    put(picture, language.leaf_end, &[])
}

// Appends a line between each two leaves that are linked as neighbours.
fn draw_links(
    picture: &mut Vec<u8>,
    language: &Language,
    places: Places,
    before: &Shape,
    now: &Shape,
) -> Result<(), AllocError> {
    for place in 1..now.leaves.len() {
        let left = &now.leaves[place - 1];
        let right = &now.leaves[place];
        if left.is_linked_to(right) {
            let form = language.link_of(before.has_link(left.id, right.id));
            put(picture, form, &places.of_link(left, right))?;
        }
    }
    Ok(())
}
