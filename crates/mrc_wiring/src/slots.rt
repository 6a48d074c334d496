//! What the forms of a class can carry.

ghost use Rattle.std.specs.Prelude.{◌≡◌, ◌||◌, ℕ, length};
ghost use Rattle.std.specs.List.{list_any};
ghost use Rattle.mrc_model.specs.Wiring.{accepts_destroyed, accepts_routine, has_routine};
ghost use Rattle.mrc_model.specs.Wiring.{item_forms, is_destroyed_item, admits};
ghost use Rattle.mrc_bits.specs.Bits.{is_set};
ghost use Rattle.mrc_wiring.specs.Admitting.{class_words};
ghost use Rattle.mrc_wiring.specs.Table.{wiring_of};
ghost use Rattle.mrc_wiring.specs.Slots.{takes, shape_takes, form_takes, is_taker};
ghost use Rattle.mrc_model.specs.Wiring.{label, interface, is_reply_of, accepts_reply, is_answered};
ghost use Rattle.mrc_model.specs.Wiring.{accepts_replier, is_routine_of, is_answered_at, fits_at};
ghost use Rattle.mrc_wiring.specs.Finding.{is_of_routine, is_there_of_routine, is_there_of_id};

use crate::typed::{TypedArgument, TypedForm};
use crate::wired::Wired;
use mrc_base::{ClassId, Disp};
use mrc_bits::join_bits;
use mrc_model::LabelItem;

impl Wired {
    /// Whether the argument is a slot of the disposition, whose type admits the class.
    fn argument_takes(&self, argument: &TypedArgument, disp: Disp, carried: ClassId) -> bool
        ensures { result ≡ shape_takes (wiring_of self.now) disp carried argument.now }
    {
        argument.items.types.has(disp.number()) && self.admits(argument.sort, carried)
    }

    /// Whether an argument of the form is such a slot.
    fn form_takes(&self, form: &TypedForm, disp: Disp, carried: ClassId) -> bool
        ensures { result ≡ form_takes (wiring_of self.now) disp carried form.now }
    {
        form.arguments()
            .iter()
            .any(|argument| self.argument_takes(argument, disp, carried))
    }

    /// Whether there is a form, and it has such a slot.
    fn is_taker(&self, form: &Option<TypedForm>, disp: Disp, carried: ClassId) -> bool
        ensures { result ≡ is_taker (wiring_of self.now) disp carried form.now }
    {
        match form {
            Some(form) => self.form_takes(form, disp, carried),
            None => false,
        }
    }

    /// Whether one of the forms that are there has such a slot.
    fn has_taker(&self, forms: &[Option<TypedForm>], disp: Disp, carried: ClassId) -> bool
        ensures { result ≡ list_any (is_taker (wiring_of self.now) disp carried) forms.now }
    {
        forms.iter().any(|form| self.is_taker(form, disp, carried))
    }

    /// Whether a form that the item stands for has such a slot.
    fn item_takes(&self, item: LabelItem, disp: Disp, carried: ClassId) -> bool
        ensures { result ≡ list_any (form_takes (wiring_of self.now) disp carried)
            (item_forms (wiring_of self.now) item) }
    {
        self.has_taker(self.item_forms(item), disp, carried)
    }

    /// Whether a form that the class accepts has a slot of the disposition, whose type admits the
    /// class that is carried.
    #[tactic(auto, unfolding(crate::specs::Slots::takes, mrc_model::specs::Wiring::forms))]
    pub fn takes(&self, to: ClassId, disp: Disp, carried: ClassId) -> bool
        ensures { result ≡ takes (wiring_of self.now) to disp carried }
    {
        for item in self.label(to) {
            if self.item_takes(*item, disp, carried) {
                return true;
            }
        }
        false
    }

    /// Adds to a row of classes those that the type of this number admits.
    fn join_admitted(&self, row: &mut [u64], sort: usize)
        requires { length row.old ≡ class_words }
        ensures { (c : ℕ) →
            is_set row.new c ≡ (is_set row.old c || admits (wiring_of self.now) sort c) }
    {
        let admitted = self.admitting(sort);
        join_bits(row, admitted, admitted);
    }

    /// Adds those that a slot of the form takes, if it is of the disposition.
    fn join_form(&self, row: &mut [u64], form: &TypedForm, disp: Disp)
        requires { length row.old ≡ class_words }
        ensures { (c : ℕ) → is_set row.new c
            ≡ (is_set row.old c || form_takes (wiring_of self.now) disp c form.now) }
    {
        for argument in form.arguments() {
            if argument.items.types.has(disp.number()) {
                self.join_admitted(row, argument.sort);
            }
        }
    }

    /// Adds those that such a slot of one of the forms takes.
    fn join_forms(&self, row: &mut [u64], forms: &[Option<TypedForm>], disp: Disp)
        requires { length row.old ≡ class_words }
        ensures { (c : ℕ) → is_set row.new c ≡ (is_set row.old c
            || list_any (is_taker (wiring_of self.now) disp c) forms.now) }
    {
        for form in forms {
            if let Some(form) = form {
                self.join_form(row, form, disp);
            }
        }
    }

    /// Adds those that such a slot of a form that the item stands for takes.
    fn join_item(&self, row: &mut [u64], item: LabelItem, disp: Disp)
        requires { length row.old ≡ class_words }
        ensures { (c : ℕ) → is_set row.new c ≡ (is_set row.old c
            || list_any (form_takes (wiring_of self.now) disp c)
            (item_forms (wiring_of self.now) item)) }
    {
        self.join_forms(row, self.item_forms(item), disp);
    }

    /// Adds to a row of classes each that a form of the class's label has a slot for: a slot of the
    /// disposition, whose type admits the class. It takes a few words a slot, however many admit
    /// lines there are.
    #[tactic(auto, unfolding(crate::specs::Slots::takes, mrc_model::specs::Wiring::forms))]
    pub fn join_taken(&self, row: &mut [u64], to: ClassId, disp: Disp)
        requires { length row.old ≡ class_words }
        ensures { (c : ℕ) →
            is_set row.new c ≡ (is_set row.old c || takes (wiring_of self.now) to disp c) }
    {
        for item in self.label(to) {
            self.join_item(row, *item, disp);
        }
    }

    /// Whether the item stands for requests of an interface that has one which may bring a reply
    /// right.
    fn has_routine(&self, item: LabelItem) -> bool
        ensures { result ≡ has_routine (wiring_of self.now) item }
    {
        has_form_of_routine(self.item_forms(item))
    }

    /// Whether the class accepts requests of an interface that has one which may bring a reply
    /// right.
    #[tactic(auto, unfolding(mrc_model::specs::Wiring::accepts_routine))]
    pub fn accepts_routine(&self, class: ClassId) -> bool
        ensures { result ≡ accepts_routine (wiring_of self.now) class }
    {
        for item in self.label(class) {
            if self.has_routine(*item) {
                return true;
            }
        }
        false
    }

    /// Whether the class accepts the replies of the interface of this number.
    #[tactic(auto, unfolding(mrc_model::specs::Wiring::accepts_reply))]
    fn accepts_reply(&self, class: ClassId, number: usize) -> bool
        ensures { result ≡ accepts_reply (wiring_of self.now) class number }
    {
        for item in self.label(class) {
            if is_reply_of(number, *item) {
                return true;
            }
        }
        false
    }

    /// Whether the item stands for requests of an interface that has one which may bring a reply
    /// right, and whose replies the class accepts.
    fn is_answered(&self, item: LabelItem, class: ClassId) -> bool
        ensures { result ≡ is_answered (wiring_of self.now) class item }
    {
        match item {
            LabelItem::Request(number) => {
                self.has_routine(item) && self.accepts_reply(class, number)
            }
            LabelItem::Reply(_) => false,
            LabelItem::Destroyed => false,
        }
    }

    /// Whether an item of the class's label is so answered.
    fn has_answered(&self, to: ClassId, class: ClassId) -> bool
        ensures { result ≡ list_any (is_answered (wiring_of self.now) class)
            (label (wiring_of self.now) to) }
    {
        for item in self.label(to) {
            if self.is_answered(*item, class) {
                return true;
            }
        }
        false
    }

    /// Whether a reply right on a port of the class can come with some request to class `to`: with
    /// one of an interface whose replies the class accepts if reply ports have to fit.
    #[tactic(auto, unfolding(mrc_model::specs::Wiring::accepts_replier))]
    pub fn accepts_replier(&self, to: ClassId, class: ClassId) -> bool
        ensures { result ≡ accepts_replier (wiring_of self.now) to class }
    {
        if self.replies_fit() {
            self.has_answered(to, class)
        } else {
            self.accepts_routine(to)
        }
    }

    /// Whether the interface of this number has a request of the id which may bring a reply right.
    fn has_routine_at(&self, number: usize, id: u32) -> bool
        ensures { result ≡ list_any (is_routine_of id)
            (interface (wiring_of self.now) number).requests }
    {
        has_form_of_id(self.item_forms(LabelItem::Request(number)), id)
    }

    /// Whether the item stands for requests of an interface that has one of the id which may bring
    /// a reply right, and whose replies the class accepts.
    fn is_answered_at(&self, item: LabelItem, id: u32, class: ClassId) -> bool
        ensures { result ≡ is_answered_at (wiring_of self.now) id class item }
    {
        match item {
            LabelItem::Request(number) => {
                self.has_routine_at(number, id) && self.accepts_reply(class, number)
            }
            LabelItem::Reply(_) => false,
            LabelItem::Destroyed => false,
        }
    }

    /// Whether an item of the class's label is so answered.
    fn has_answered_at(&self, to: ClassId, id: u32, class: ClassId) -> bool
        ensures { result ≡ list_any (is_answered_at (wiring_of self.now) id class)
            (label (wiring_of self.now) to) }
    {
        for item in self.label(to) {
            if self.is_answered_at(*item, id, class) {
                return true;
            }
        }
        false
    }

    /// Whether a reply right on a port of the class fits the request of this id to class `to`.
    #[tactic(auto, unfolding(mrc_model::specs::Wiring::fits_at))]
    pub fn fits_at(&self, to: ClassId, id: u32, class: ClassId) -> bool
        ensures { result ≡ fits_at (wiring_of self.now) to id class }
    {
        !self.replies_fit() || self.has_answered_at(to, id, class)
    }

    /// Whether a port of the class may be named in a port-destroyed request.
    #[tactic(auto, unfolding(mrc_model::specs::Wiring::accepts_destroyed))]
    pub fn accepts_destroyed(&self, class: ClassId) -> bool
        ensures { result ≡ accepts_destroyed (wiring_of self.now) class }
    {
        for item in self.label(class) {
            if is_destroyed_item(*item) {
                return true;
            }
        }
        false
    }
}

fn is_reply_of(number: usize, item: LabelItem) -> bool
    ensures { result ≡ is_reply_of number item }
{
    match item {
        LabelItem::Request(_) => false,
        LabelItem::Reply(other) => other == number,
        LabelItem::Destroyed => false,
    }
}

/// Whether there is a form, and it is that of a request with the id which may bring a reply right.
fn is_there_of_id(form: &Option<TypedForm>, id: u32) -> bool
    ensures { result ≡ is_there_of_id id form.now }
{
    match form {
        Some(form) => form.is_of_routine() && form.id() == id,
        None => false,
    }
}

/// Whether one of the forms that are there is that of such a request with the id.
fn has_form_of_id(forms: &[Option<TypedForm>], id: u32) -> bool
    ensures { result ≡ list_any (is_there_of_id id) forms.now }
{
    forms.iter().any(|form| is_there_of_id(form, id))
}

fn is_destroyed_item(item: LabelItem) -> bool
    ensures { result ≡ is_destroyed_item item }
{
    match item {
        LabelItem::Request(_) => false,
        LabelItem::Reply(_) => false,
        LabelItem::Destroyed => true,
    }
}

/// Whether there is a form, and it is that of a request which may bring a reply right.
fn is_there_of_routine(form: &Option<TypedForm>) -> bool
    ensures { result ≡ is_there_of_routine form.now }
{
    match form {
        Some(form) => form.is_of_routine(),
        None => false,
    }
}

/// Whether one of the forms that are there is that of such a request.
fn has_form_of_routine(forms: &[Option<TypedForm>]) -> bool
    ensures { result ≡ list_any is_there_of_routine forms.now }
{
    forms.iter().any(|form| is_there_of_routine(form))
}
