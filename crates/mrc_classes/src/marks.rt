//! Marks of rights on classes: what a rule concludes in one row.

ghost use Rattle.std.specs.Prelude.{◌≡◌, ◌<◌, ◌==◌, ◌&&◌, ◌||◌, ℕ, false, nat_lt, not};
ghost use Rattle.mrc_base.specs.declared.PortRight.{PortRight};
ghost use Rattle.mrc_bits.specs.Bits.{is_set};
ghost use Rattle.mrc_rows.specs.Limits.{limit_of_classes};
ghost use Rattle.mrc_model.specs.Rights.{same_right};
ghost use Rattle.mrc_classes.specs.Marking.{words_of, is_marked};

use mrc_base::PortRight;
use mrc_bits::{clear_bits, or_both, set_bit};
use mrc_rows::limits::WORDS;

/// Marks of rights on classes: a row of bits for each of the three rights, of as many classes as a
/// wiring can have. It takes no memory but its own.
#[derive(Drop)]
pub(crate) struct Marks {
    send: [u64; WORDS],
    receive: [u64; WORDS],
    once: [u64; WORDS],
}

impl Marks {
    /// No mark.
    pub(crate) fn none() -> Marks
        ensures { (c : ℕ) (r : PortRight) → is_marked result c r ≡ false }
    {
        Marks {
            send: [0; WORDS],
            receive: [0; WORDS],
            once: [0; WORDS],
        }
    }

    /// The classes at which the right is marked.
    pub(crate) fn words(&self, right: PortRight) -> &[u64]
        ensures { result.now ≡ words_of self.now right }
    {
        match right {
            PortRight::Send => &self.send,
            PortRight::Receive => &self.receive,
            PortRight::SendOnce => &self.once,
        }
    }

    /// Marks the right at the classes that both have.
    pub(crate) fn add(&mut self, right: PortRight, more: &[u64], mask: &[u64])
        ensures { (c : ℕ) (r : PortRight) → is_marked self.new c r ≡ (is_marked self.old c r
            || (same_right r right && (nat_lt c limit_of_classes
            && (is_set more.now c && is_set mask.now c)))) }
    {
        match right {
            PortRight::Send => or_both(&mut self.send, more, mask),
            PortRight::Receive => or_both(&mut self.receive, more, mask),
            PortRight::SendOnce => or_both(&mut self.once, more, mask),
        }
    }

    /// Marks the right at the classes that all three have.
    pub(crate) fn add_within(
        &mut self,
        right: PortRight,
        more: &[u64],
        mask: &[u64],
        limits: &[u64],
    )
        ensures { (c : ℕ) (r : PortRight) → is_marked self.new c r ≡ (is_marked self.old c r
            || (same_right r right && (nat_lt c limit_of_classes
            && (is_set limits.now c && (is_set more.now c && is_set mask.now c))))) }
    {
        let mut both = [0; WORDS];
        or_both(&mut both, mask, limits);
        self.add(right, more, &both);
    }

    /// Takes away the marks of the right at the classes of the row.
    pub(crate) fn forget(&mut self, right: PortRight, less: &[u64])
        ensures { (c : ℕ) (r : PortRight) → is_marked self.new c r
            ≡ (is_marked self.old c r && not (same_right r right && is_set less.now c)) }
    {
        match right {
            PortRight::Send => clear_bits(&mut self.send, less),
            PortRight::Receive => clear_bits(&mut self.receive, less),
            PortRight::SendOnce => clear_bits(&mut self.once, less),
        }
    }

    /// Marks the right at the class.
    pub(crate) fn mark(&mut self, right: PortRight, class: u16)
        requires { class < limit_of_classes }
        ensures { (c : ℕ) (r : PortRight) → is_marked self.new c r
            ≡ (is_marked self.old c r || (same_right r right && c == class)) }
    {
        match right {
            PortRight::Send => set_bit(&mut self.send, class as usize),
            PortRight::Receive => set_bit(&mut self.receive, class as usize),
            PortRight::SendOnce => set_bit(&mut self.once, class as usize),
        }
    }
}
