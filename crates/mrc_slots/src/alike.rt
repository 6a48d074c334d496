//! Classes that accept the same.

ghost use Rattle.std.specs.Prelude.{◌≡◌, ◌<◌, ℕ, IfSome};
ghost use Rattle.std.specs.Option.{IfNone};
ghost use Rattle.mrc_model.specs.Wiring.{label};
ghost use Rattle.mrc_wiring.specs.Table.{wiring_of};

use mrc_base::{ClassId, same_all};
use mrc_wiring::Wired;

/// An earlier class that accepts the same as this one, where there is one.
pub(crate) fn alike_before(wired: &Wired, class: u16) -> Option<u16>
    ensures below { IfSome result (λ d. d < class) }
    ensures alike { IfSome result
        (λ d. label (wiring_of wired.now) d ≡ label (wiring_of wired.now) class) }
    ensures none { IfNone result ((d : ℕ) → d < class
        → label (wiring_of wired.now) d ≡ label (wiring_of wired.now) class → ⊥) }
{
    let accepted = wired.label(ClassId(class));
    for earlier in 0..class {
        if same_all(wired.label(ClassId(earlier)), accepted) {
            return Some(earlier);
        }
    }
    None
}
