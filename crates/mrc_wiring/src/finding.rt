//! The forms that classes accept, by their ids.

ghost use Rattle.std.specs.Prelude.{◌≡◌, find, flat_map, IfSome, Some};
ghost use Rattle.std.specs.Option.{option_map, option_to_list};
ghost use Rattle.mrc_model.specs.Wiring.{forms, item_forms};
ghost use Rattle.mrc_wiring.specs.Table.{wiring_of};
ghost use Rattle.mrc_wiring.specs.Finding.{item_of, has_id, form_at, message_forms, placed};

use crate::typed::TypedForm;
use crate::wired::Wired;
use mrc_base::ClassId;
use mrc_forms::MessageKind;
use mrc_model::LabelItem;

/// The item of a label that stands for these messages of the subsystem of this number.
pub fn item_of(kind: MessageKind, number: usize) -> LabelItem
    ensures { result ≡ item_of kind number }
{
    match kind {
        MessageKind::Request => LabelItem::Request(number),
        MessageKind::Reply => LabelItem::Reply(number),
    }
}

/// The form at a place, if there is one.
fn placed(forms: &[Option<TypedForm>], place: usize) -> Option<&TypedForm>
    ensures { option_map (λ form. form.now) result ≡ placed forms.now place }
{
    forms.get(place)?.as_ref()
}

impl Wired {
    /// The forms that the item of a label stands for, in the order of their ids; none at an id
    /// without this message.
    pub(crate) fn item_forms(&self, item: LabelItem) -> &[Option<TypedForm>]
        ensures { flat_map option_to_list result.now ≡ item_forms (wiring_of self.now) item }
    {
        match item {
            LabelItem::Request(number) => self.forms(MessageKind::Request, number),
            LabelItem::Reply(number) => self.forms(MessageKind::Reply, number),
            LabelItem::Destroyed => &[],
        }
    }

    /// The form of this message that has the id, of the interface of this number.
    fn form_by_id(&self, kind: MessageKind, number: usize, id: u32) -> Option<&TypedForm>
        ensures { option_map (λ form. form.now) result
            ≡ find (has_id id) (message_forms kind (wiring_of self.now) number) }
    {
        let interface = self.interface(number)?;
        let _ids = interface.ids();
        let place = interface.place_of(kind, id)?;
        placed(self.forms(kind, number), place)
    }

    /// The form with the id among those that the item of a label stands for.
    pub fn item_form(&self, item: LabelItem, id: u32) -> Option<&TypedForm>
        ensures { option_map (λ form. form.now) result
            ≡ find (has_id id) (item_forms (wiring_of self.now) item) }
    {
        match item {
            LabelItem::Request(number) => self.form_by_id(MessageKind::Request, number, id),
            LabelItem::Reply(number) => self.form_by_id(MessageKind::Reply, number, id),
            LabelItem::Destroyed => None,
        }
    }

    /// The form of the id that a class accepts, and the place of its item in the class's label,
    /// from 0. No label has two forms of one id.
    pub fn form_of(&self, class: ClassId, id: u32) -> Option<(usize, &TypedForm)>
        ensures exact { option_map (λ found. found.1.now) result
            ≡ find (has_id id) (forms (wiring_of self.now) class) }
        ensures placed { IfSome result (λ found.
            form_at (wiring_of self.now) class found.0 id ≡ Some found.1.now) }
    {
        for (place, item) in self.label(class).iter().enumerate() {
            if let Some(form) = self.item_form(*item, id) {
                return Some((place, form));
            }
        }
        None
    }
}
