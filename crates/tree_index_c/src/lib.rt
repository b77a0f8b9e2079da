//! The index as a static library, for C and for every language that calls C.
//!
//! A caller keeps a handle, which leads to an index or is closed. An export takes any arguments, in
//! any state of its handle: it requires nothing, and answers `MISFIT` if the handle doesn't fit the
//! call. Its contract is over what the handle holds, which is an index of numbers, one of byte
//! strings, or none (`specs/Held.antt`).
//!
//! The first parameter of an export is `alloc`, the heap of the index and of the closed handle
//! that is there while a call has taken the index out. C passes nothing for it, since a `Global`
//! takes no bytes.
//!
//! Numbers cross, handles, and slices of bytes, pairs and entries. An index itself can't, since it
//! has a number of 128 bits, enums and vectors, and C gets none of these in the signature of an
//! export. So a handle has a pointer to nothing in particular, and its ghost field says what it
//! owns there. A cursor can't cross either, since it borrows the index: a walk is a series of calls
//! that each fill as many places as the caller has.
#![tactic(auto)]

mod bytes;
mod copies;
mod detached;
mod entry;
mod frozen;
mod handle;
mod handles;
mod numbers;
mod owned;
mod pair;
mod status;
mod store;
