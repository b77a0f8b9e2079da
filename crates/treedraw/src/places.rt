//! Where the parts of a picture are, and the numbers of each.
use crate::levels::Level;
use crate::rows::Child;
use crate::shape::{LeafShape, NodeShape, PARTS, Shape};

/// The margin around a picture.
pub const MARGIN: u64 = 20;

// The upper edge of the first level, which is below the line that a picture is of.
const TOP: u64 = 34;

// From a level to the one below it.
const STEP: u64 = 56;

// From a leaf to the next one.
const GAP: u64 = 16;

// The height of a cell.
const HEIGHT: u64 = 18;

// From the upper edge of a cell to the baseline of its text.
const BASELINE: u64 = 13;

// From the bar of a level to the one below it.
const BAR_STEP: u64 = 40;

// How long the bar of a level is.
const BAR: u64 = 400;

/// The cells of a tree: their width, and what decides where they are.
#[derive(Clone, Copy)]
pub struct Places {
    width: u64,
    depth: usize,
    slots: usize,
}

impl Places {
    /// Returns the places of a tree, whose cells are as wide as its largest key needs.
    pub fn of(shape: &Shape) -> Self {
        let more_digits = u64::from(shape.largest.checked_ilog10().unwrap_or(0));
        Places {
            width: more_digits.saturating_mul(8).saturating_add(22),
            depth: shape.depth,
            slots: shape.slots,
        }
    }

    /// Returns how many slots a leaf has.
    pub fn slots(self) -> usize {
        self.slots
    }

    /// Returns the left edge of a leaf, which is the right edge of a picture with so many leaves.
    pub fn leaf(self, number: u64) -> u64 {
        let pitch = self.width.saturating_add(GAP);
        number.saturating_mul(pitch).saturating_add(MARGIN)
    }

    /// Returns the height of a picture.
    pub fn height(self) -> u64 {
        steps(self.top(0), self.slots, HEIGHT).saturating_add(MARGIN)
    }

    /// Returns the numbers of a cell of a node.
    pub fn of_separator(self, node: &NodeShape, place: usize, key: u64) -> [u64; 7] {
        let x = steps(self.row(node), place, self.width);
        self.cell(x, self.top(node.level), key, place)
    }

    /// Returns the numbers of a cell of a leaf.
    pub fn of_slot(self, leaf: &LeafShape, slot: usize, key: u64) -> [u64; 7] {
        let y = steps(self.top(0), slot, HEIGHT);
        self.cell(self.leaf(leaf.number), y, key, slot)
    }

    /// Returns the numbers of the edge from a cell of a node to the child under it: those of the
    /// node, the cell and the child, and the two ends.
    pub fn of_edge(self, node: &NodeShape, place: usize, child: Child) -> [u64; 7] {
        let from = steps(self.row(node), place, self.width).saturating_add(self.width / 2);
        let bottom = self.top(node.level).saturating_add(HEIGHT);
        let below = self.top(node.level.saturating_sub(1));
        let to = self.middle(child.middle);
        [
            node.number,
            place as u64,
            child.number,
            from,
            bottom,
            to,
            below,
        ]
    }

    /// Returns the numbers of the link between two leaves: those of the leaves, its left end, how
    /// far down it is, and its right end.
    pub fn of_link(self, left: &LeafShape, right: &LeafShape) -> [u64; 5] {
        let end = self.leaf(right.number);
        let y = self.top(0).saturating_add(HEIGHT / 2);
        [left.number, right.number, end.saturating_sub(GAP), y, end]
    }

    // Returns the numbers of a cell: its left edge, its upper edge, its width, the middle and the
    // baseline of its text, its key, and its place in its row or column.
    fn cell(self, x: u64, y: u64, key: u64, place: usize) -> [u64; 7] {
        let middle = x.saturating_add(self.width / 2);
        let baseline = y.saturating_add(BASELINE);
        [x, y, self.width, middle, baseline, key, place as u64]
    }

    // Returns the left edge of the row of a node.
    fn row(self, node: &NodeShape) -> u64 {
        let half = (node.children.count() as u64).saturating_mul(self.width) / 2;
        self.middle(node.children.middle()).saturating_sub(half)
    }

    // Returns where a middle is that is so many parts of the distance of two leaves behind that of
    // the first leaf.
    fn middle(self, parts: u64) -> u64 {
        let pitch = self.width.saturating_add(GAP);
        let distance = parts.saturating_mul(pitch) / PARTS;
        distance
            .saturating_add(MARGIN)
            .saturating_add(self.width / 2)
    }

    // Returns the upper edge of a level.
    fn top(self, level: usize) -> u64 {
        steps(TOP, self.depth.saturating_sub(level), STEP)
    }
}

/// Returns the size of a picture of so many levels of nodes as bars.
pub fn size_of_bars(depth: usize) -> (u64, u64) {
    let height = steps(TOP.saturating_add(BAR_STEP), depth, BAR_STEP);
    (BAR.saturating_add(MARGIN), height)
}

/// Returns the numbers of a level which so many are above: what it is and has, how long its bar is
/// for keys, for spent slots and for those that are left, the baseline of its text, the upper edge
/// of its bar, and where the part for spent slots begins.
pub fn of_level(level: usize, above: usize, found: Level) -> [u64; 11] {
    let full = found.length_of(found.keys, BAR);
    let spent = found.length_of(found.spent, BAR);
    let left = BAR.saturating_sub(full).saturating_sub(spent);
    let top = steps(TOP, above, BAR_STEP);
    let (baseline, bar) = (top.saturating_add(10), top.saturating_add(HEIGHT));
    let behind = full.saturating_add(MARGIN);
    [
        level as u64,
        found.arrays,
        found.keys,
        found.spent,
        found.slots,
        full,
        spent,
        left,
        baseline,
        bar,
        behind,
    ]
}

// Returns a place so many steps after a start.
fn steps(start: u64, count: usize, step: u64) -> u64 {
    start.saturating_add((count as u64).saturating_mul(step))
}
