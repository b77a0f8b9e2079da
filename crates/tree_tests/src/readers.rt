//! Worked look-ups that pass the pair to a reader.
use crate::indexes::index_of;
use std::alloc::{AllocError, Global};
use std::process::Abort;
use test_support::refusals::succeeds;
use tree_index::TreeIndex;

// Keys, what a reader that adds key and value returns, and how often it is called.
static READS: [(u64, Option<u64>, u64); 2] = [(1, Some(11), 1), (2, None, 0)];

// What `peek_with` returns for a key, and how often it called its reader.
fn peeked(index: &TreeIndex<u64, u64>, key: u64) -> (Option<u64>, u64) {
    let mut calls = 0u64;
    let sum = index.peek_with(&key, |key, value| {
        calls = calls.saturating_add(1);
        key.saturating_add(*value)
    });
    (sum, calls)
}

// What `read_sync` returns for a key, and how often it called its reader.
fn read(index: &TreeIndex<u64, u64>, key: u64) -> (Option<u64>, u64) {
    let mut calls = 0u64;
    let sum = index.read_sync(&key, |key, value| {
        calls = calls.saturating_add(1);
        key.saturating_add(*value)
    });
    (sum, calls)
}

// The reader is called once with a pair that is present, and never for an absent key.
fn reads_steps(rt: &impl Abort, alloc: Global) -> Result<(), AllocError> {
    let index = index_of(alloc, &[(1, 10)])?;
    for (key, sum, times) in &READS {
        assert!(rt; [peeked(&index, *key), read(&index, *key)] == [(*sum, *times); 2]);
    }
    Ok(())
}

#[test]
fn reads(rt: HostRuntime) {
    assert!(rt; succeeds(rt.alloc(), || reads_steps(&rt, rt.alloc())));
}
