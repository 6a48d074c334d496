//! The places of the facts of a group, in their order.

ghost use Rattle.std.specs.Prelude.{◌≡◌, ◌+◌, ◌*◌, ◌^◌, ◌<◌, ◌==◌, ℕ, true, false};
ghost use Rattle.std.specs.Prelude.{IfSome, IfNone};
ghost use Rattle.std.specs.Int.{bit_at};
ghost use Rattle.mrc_facts.specs.Order.{right_number};
ghost use Rattle.mrc_bits.specs.Bits.{is_set};
ghost use Rattle.mrc_rows.specs.Limits.{limit_of_words};
ghost use Rattle.mrc_rows.specs.Planes.{plane, has_class, is_in, place_key, key_behind};
ghost use Rattle.mrc_rows.specs.Planes.{IsFirstBy, NoneBy, IsFirstRight};

use crate::limits::WORDS;
use crate::planes::Planes;
use mrc_base::PortRight;
use mrc_bits::{has_bit, next_bit, word_at};

/// A right on a class: the place of a fact in its group.
pub(crate) type Place = (usize, PortRight);

impl<'a> Planes<'a> {
    /// The bits of the three words of this number, together.
    fn word(&self, k: usize) -> u64
        requires { k < limit_of_words }
        ensures { (i : ℕ) → i < 64 → (bit_at result i == 1) ≡ has_class self.now (64 * k + i) }
    {
        word_at(self.send, k) | word_at(self.receive, k) | word_at(self.once, k)
    }

    /// The first class from this one on that has a bit in some row.
    fn next_class(&self, from: usize) -> Option<usize>
        ensures found { IfSome result (IsFirstBy (has_class self.now) from) }
        ensures none { IfNone result (NoneBy (has_class self.now) from) }
    {
        let mut start = from % 64;
        for place in from / 64..WORDS {
            if let Some(bit) = next_bit(&[self.word(place)], start) {
                return Some(64 * place + bit);
            }
            start = 0;
        }
        None
    }

    /// The first right whose row has the bit of the class.
    fn first_right(&self, class: usize) -> PortRight
        requires { has_class self.now class ≡ true }
        ensures { IsFirstRight self.now class result }
    {
        if has_bit(self.send, class) {
            PortRight::Send
        } else if has_bit(self.receive, class) {
            PortRight::Receive
        } else {
            PortRight::SendOnce
        }
    }

    /// The first place from this class on.
    fn first_place(&self, from: usize) -> Option<Place>
        ensures found { IfSome result (λ place.
            IsFirstBy (is_in self.now) (3 * from) (place_key place)) }
        ensures none { IfNone result (NoneBy (is_in self.now) (3 * from)) }
    {
        let class = self.next_class(from)?;
        Some((class, self.first_right(class)))
    }

    /// The first right behind this one whose row has the bit of the class.
    #[inline(always)]
    fn next_right(&self, class: usize, right: PortRight) -> Option<PortRight>
        ensures found { IfSome result (λ next. IsFirstBy (is_in self.now)
            (place_key (class, right) + 1) (place_key (class, next))) }
        ensures none { IfNone result ((q : ℕ) → right_number right < q → q < 3 →
            is_set (plane self.now q) class ≡ false) }
    {
        match right {
            PortRight::Send if has_bit(self.receive, class) => Some(PortRight::Receive),
            PortRight::SendOnce => None,
            _ if has_bit(self.once, class) => Some(PortRight::SendOnce),
            _ => None,
        }
    }

    /// The first place behind this one.
    #[inline(always)]
    pub(crate) fn next_place(&self, class: usize, right: PortRight) -> Option<Place>
        requires { class < 2 ^ 16 }
        ensures found { IfSome result (λ place.
            IsFirstBy (is_in self.now) (place_key (class, right) + 1) (place_key place)) }
        ensures none { IfNone result (NoneBy (is_in self.now) (place_key (class, right) + 1)) }
    {
        match self.next_right(class, right) {
            Some(next) => Some((class, next)),
            None => self.first_place(class + 1),
        }
    }

    /// The first place behind this one; without one the first of all.
    pub(crate) fn next_behind(&self, behind: Option<Place>) -> Option<Place>
        requires { IfSome behind (λ place. place.0 < 2 ^ 16) }
        ensures found { IfSome result (λ place.
            IsFirstBy (is_in self.now) (key_behind behind) (place_key place)) }
        ensures none { IfNone result (NoneBy (is_in self.now) (key_behind behind)) }
    {
        match behind {
            Some((class, right)) => self.next_place(class, right),
            None => self.first_place(0),
        }
    }
}
