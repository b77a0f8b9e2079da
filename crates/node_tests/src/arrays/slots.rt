//! The sizes of slots and rows, and what they drop.
use crate::arrays::expect::expect_eq;
use crate::arrays::token::Token;
use std::cell::Cell;
use std::marker::{Send, Sync};
use std::mem::size_of;
use tree_slots::row::Row;
use tree_slots::slot::Slot;

fn goes_to_threads<T: Send + Sync>(_sent: &T) {}

#[test]
fn sizes(rt: HostRuntime) {
    expect_eq(&rt, size_of::<Slot<u8>>(), 1);
    expect_eq(&rt, size_of::<Slot<u64>>(), 8);
    expect_eq(&rt, size_of::<Slot<String>>(), size_of::<String>());
    assert_eq!(rt; size_of::<Row<u64, 15>>(), 120);
    assert_eq!(rt; size_of::<Row<(u64, u8), 7>>(), 112);
}

#[test]
fn a_slot_drops_its_values_once(rt: HostRuntime) {
    let drops = Cell::new(0);
    let mut slot = Slot::full(Token::new(1, &drops));
    let number = Slot::full(1);
    goes_to_threads(&number);
    expect_eq(&rt, number.into_inner(), 1);
    let mut other = slot.spare();
    expect_eq(&rt, (slot.get().number, drops.get()), (1, 0));
    let first = slot.take();
    expect_eq(&rt, (first.number, drops.get()), (1, 0));
    drop(first);
    expect_eq(&rt, drops.get(), 1);
    other.put(Token::new(2, &drops));
    let second = other.replace(Token::new(3, &drops));
    expect_eq(
        &rt,
        (second.number, other.get().number, drops.get()),
        (2, 3, 1),
    );
    drop(second);
    drop(other.into_inner());
    expect_eq(&rt, drops.get(), 3);
    slot.discard();
    expect_eq(&rt, drops.get(), 3);
}

#[test]
fn a_row_drops_its_values_once(rt: HostRuntime) {
    let drops = Cell::new(0);
    let mut row: Row<Token, 3> = Row::with(1, Token::new(10, &drops));
    row.put(2, Token::new(20, &drops));
    row.put(0, Token::new(30, &drops));
    expect_eq(
        &rt,
        (row.get(0).number, row.get(1).number, row.get(2).number),
        (30, 10, 20),
    );
    drop(row.replace(2, Token::new(40, &drops)));
    expect_eq(&rt, (row.get(2).number, drops.get()), (40, 1));
    drop(row.take(1));
    expect_eq(&rt, drops.get(), 2);
    row.put(1, Token::new(50, &drops));
    expect_eq(
        &rt,
        (row.take(0).number, row.take(1).number, row.take(2).number),
        (30, 50, 40),
    );
    expect_eq(&rt, drops.get(), 5);
    row.discard();
    expect_eq(&rt, drops.get(), 5);
}
