//! Forms by the names of their interfaces and routines.

ghost use Rattle.std.specs.Prelude.{◌≡◌};
ghost use Rattle.std.specs.Option.{option_map};
ghost use Rattle.mrc_message_words.specs.Spoken.{form_by, table_named};

use mrc_forms::{Form, Interface, MessageKind};

/// The first interface of this name.
fn interface_named<'i>(interfaces: &'i [Interface], name: &str) -> Option<&'i Interface>
    ensures { option_map (λ interface. interface.now) result ≡ table_named interfaces.now name.now }
{
    interfaces.iter().find(|interface| name == interface.name())
}

/// The form of this message of the routine, of the first interface of the name.
pub(crate) fn form_by<'i>(
    interfaces: &'i [Interface],
    kind: MessageKind,
    interface: &str,
    routine: &str,
) -> Option<&'i Form>
    ensures { option_map (λ form. form.now) result
        ≡ form_by interfaces.now kind interface.now routine.now }
{
    let interface = interface_named(interfaces, interface)?;
    interface.form_named(kind, routine)
}
