//! Rows of bits, in words of 64.
#![tactic(auto)]

mod bits;

pub use bits::{
    clear_bit, clear_bits, has_bit, has_fresh, join_bits, next_bit, next_fresh, or_both, set_bit,
    word_at,
};
