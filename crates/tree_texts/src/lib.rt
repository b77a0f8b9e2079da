//! Keys that own a text or bytes, and are looked up by a text or bytes that are lent. So a look-up
//! allocates nothing. The pairs whose keys begin with a prefix are a range of an index, which can
//! be walked and removed.
//!
//! ```
//! pub fn count_of(counts: &TreeIndex<Text, u64>, word: &str) -> u64
//!     ensures { result ≡ unwrap_or (option_map (λ pair. pair.1)
//!         (pair_at (slice_cmp nat_cmp) counts.now.pairs word.now)) 0 }
//! {
//!     match peek_text(counts, word) {
//!         Some((_, count)) => *count,
//!         None => 0,
//!     }
//! }
//! ```
//!
//! Such a key keeps a head beside the pointer to its bytes: the first eight bytes as a number whose
//! order is theirs. So a comparison of two keys with different heads reads no other memory. If the
//! heads are equal, [`cmp_headed`] compares what follows eight bytes at a time.
#![tactic(auto)]

mod bytes;
mod head;
mod peek;
mod prefix;
mod prefix_end;
mod text;
mod text_prefix;
mod within;

pub use bytes::{Bytes, BytesJudge};
pub use head::{cmp_headed, eq_headed, head_of};
pub use peek::{peek_bytes, peek_text};
pub use prefix::{prefix_bounds, prefix_range, remove_prefix};
pub use prefix_end::end_of_prefix;
pub use text::{Text, TextJudge};
pub use text_prefix::{remove_text_prefix, text_prefix_bounds, text_prefix_range};
