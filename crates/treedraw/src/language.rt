//! The texts of a language for pictures, of which a picture is made.
use crate::rows::{KeyRow, Slot};

/// The forms of the parts of a picture. In a form `~a` is replaced by the first number of the part,
/// `~b` by the second, and so on, in the order that its line here gives.
pub struct Language {
    /// What is before the line that a picture is of: the width and the height of the picture.
    pub head: &'static [u8],
    /// What is after that line.
    pub body: &'static [u8],
    pub end: &'static [u8],

    /// What is before and after the cells of a node: its number.
    pub node: &'static [u8],
    pub node_end: &'static [u8],
    /// A cell of a node: its left edge, its upper edge, its width, the middle and the baseline of
    /// its text, its key and its place.
    pub separator: &'static [u8],
    pub new_separator: &'static [u8],
    /// The cell over the unbounded child, and that of a retired node.
    pub unbounded: &'static [u8],
    pub retired: &'static [u8],
    /// The edge from a cell to a child: the numbers of the node, of the cell and of the child, and
    /// the two ends.
    pub edge_to_node: &'static [u8],
    pub edge_to_leaf: &'static [u8],

    /// What is before and after the slots of a leaf: its number.
    pub leaf: &'static [u8],
    pub leaf_end: &'static [u8],
    /// A slot of a leaf, with the numbers of a cell of a node.
    pub unused: &'static [u8],
    pub spent: &'static [u8],
    pub newly_spent: &'static [u8],
    pub key: &'static [u8],
    pub new_key: &'static [u8],
    /// The link between two leaves: their numbers, its left end, how far down it is, its right end.
    pub link: &'static [u8],
    pub new_link: &'static [u8],

    /// What is before and after the levels of a large tree.
    pub levels: &'static [u8],
    pub levels_end: &'static [u8],
    /// A level: which one it is, its arrays, keys, spent slots and slots; how long its bar is for
    /// keys, for spent slots and for the rest; the baseline of its text, the upper edge of its bar,
    /// and where the part for spent slots begins.
    pub level: &'static [u8],
}

impl Language {
    /// Returns the form of the cell over a child with this separator, or over the unbounded child.
    pub fn separator_of(&self, key: Option<u64>, old: &KeyRow) -> &'static [u8] {
        match key {
            Some(key) if old.has(key) => self.separator,
            Some(_) => self.new_separator,
            None => self.unbounded,
        }
    }

    /// Returns the form of an edge to a child of a node of this level.
    pub fn edge_below(&self, level: usize) -> &'static [u8] {
        if level == 1 {
            self.edge_to_leaf
        } else {
            self.edge_to_node
        }
    }

    /// Returns the form of a slot, which was as the old one.
    pub fn slot_of(&self, slot: Slot, old: Slot) -> &'static [u8] {
        let is_old = slot == old;
        match slot {
            Slot::Unused => self.unused,
            Slot::Spent if is_old => self.spent,
            Slot::Spent => self.newly_spent,
            Slot::Key(_) if is_old => self.key,
            Slot::Key(_) => self.new_key,
        }
    }

    /// Returns the form of a link.
    pub fn link_of(&self, is_old: bool) -> &'static [u8] {
        if is_old { self.link } else { self.new_link }
    }
}
