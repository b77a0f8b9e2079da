//! The elements of a set that begin with a prefix, if they are texts or bytes.
ghost use Rattle.std.specs.Prelude.{◌≡◌, ◌≢◌, ◌↔◌, ℕ, IfOk, IsTrue, List, [], OnErr, filter};
ghost use Rattle.std.specs.Cmp.Lexicographic.{slice_cmp};
ghost use Rattle.std.specs.Ordering.{nat_cmp};
ghost use Rattle.std.specs.Str.{IsUtf8};
ghost use Rattle.tree_model.specs.Pairs.{within};
ghost use Rattle.tree_set.specs.Sets.{beginning_with, not_beginning_with};
ghost use Rattle.tree_texts.specs.Head.{AreBytes};
ghost use Rattle.tree_texts.specs.Prefix.{BoundPrefix};

use crate::range::{RangeOf, RangeOver};
use crate::set::TreeSetOf;
use std::alloc::{AllocError, Global};
use std::ops::Bound;
use tree_texts::{Bytes, Text, prefix_range, remove_prefix, remove_text_prefix, text_prefix_range};

impl<const LEN: usize> TreeSetOf<Bytes, LEN> {
    /// Returns the elements that begin with a prefix in ascending order, from both ends. The caller
    /// must pass the bounds that [`prefix_bounds`](tree_texts::prefix_bounds) returned for the
    /// prefix.
    ///
    /// Descends once, and allocates nothing. The moves cost what those of
    /// [`range`](TreeSetOf::range) do.
    ///
    /// ```
    /// let bounds = prefix_bounds(alloc, prefix)?;
    /// let mut count: usize = 0;
    /// for _element in set.prefix(&bounds) {
    ///     count = count.saturating_add(1);
    /// }
    /// ```
    pub fn prefix<'t>(&'t self, bounds: &'t (Bound<Bytes>, Bound<Bytes>)) -> RangeOf<'t, Bytes, LEN>
        ensures range { result ≡ filter (within (slice_cmp nat_cmp) bounds.now.0 bounds.now.1) self.now }
        ensures prefix { (prefix : List ℕ) → BoundPrefix AreBytes prefix bounds.now
            → result ≡ beginning_with prefix self.now }
    {
        RangeOver::new(prefix_range(&self.index, bounds))
    }

    /// Removes every element that begins with a prefix, and returns whether there was one.
    ///
    /// Returns `Err` if it cannot allocate the bounds of the prefix. No element is removed then.
    /// Descends once, and then costs what [`remove_range`](TreeSetOf::remove_range) does.
    ///
    /// ```
    /// let found = set.remove_prefix(alloc, *prefix)?;
    /// ```
    pub fn remove_prefix(&mut self, alloc: Global, prefix: &[u8]) -> Result<bool, AllocError>
        ensures removed { IfOk result (λ _. self.new ≡ not_beginning_with prefix.now self.old) }
        ensures found { IfOk result (λ found. IsTrue found ↔ (beginning_with prefix.now self.old ≢ [])) }
        ensures unchanged { OnErr result (self.new ≡ self.old) }
    {
        remove_prefix(alloc, &mut self.index, prefix)
    }
}

impl<const LEN: usize> TreeSetOf<Text, LEN> {
    /// Returns the elements that begin with a prefix in ascending order, from both ends. The caller
    /// must pass the bounds that [`text_prefix_bounds`](tree_texts::text_prefix_bounds) returned
    /// for the prefix.
    ///
    /// Descends once, and allocates nothing. The moves cost what those of
    /// [`range`](TreeSetOf::range) do.
    ///
    /// ```
    /// let bounds = text_prefix_bounds(alloc, prefix)?;
    /// let mut left = words.text_prefix(&bounds);
    /// ```
    pub fn text_prefix<'t>(
        &'t self,
        bounds: &'t (Bound<Text>, Bound<Text>),
    ) -> RangeOf<'t, Text, LEN>
        ensures range { result ≡ filter (within (slice_cmp nat_cmp) bounds.now.0 bounds.now.1) self.now }
        ensures prefix { (prefix : List ℕ) → BoundPrefix IsUtf8 prefix bounds.now
            → result ≡ beginning_with prefix self.now }
    {
        RangeOver::new(text_prefix_range(&self.index, bounds))
    }

    /// Removes every element that begins with a prefix, and returns whether there was one.
    ///
    /// Returns `Err` if it cannot allocate the bounds of the prefix. No element is removed then.
    /// Descends once, and then costs what [`remove_range`](TreeSetOf::remove_range) does.
    ///
    /// ```
    /// let found = words.remove_text_prefix(alloc, *prefix)?;
    /// ```
    pub fn remove_text_prefix(&mut self, alloc: Global, prefix: &str) -> Result<bool, AllocError>
        ensures removed { IfOk result (λ _. self.new ≡ not_beginning_with prefix.now self.old) }
        ensures found { IfOk result (λ found. IsTrue found ↔ (beginning_with prefix.now self.old ≢ [])) }
        ensures unchanged { OnErr result (self.new ≡ self.old) }
    {
        remove_text_prefix(alloc, &mut self.index, prefix)
    }
}
