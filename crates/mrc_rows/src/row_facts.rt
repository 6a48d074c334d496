//! Sets of facts as rows of bits.
ghost use Rattle.std.specs.Prelude.{◌≡◌, ◌+◌, ◌-◌, ◌*◌, ◌==◌, ◌||◌, ◌&&◌, ◌++◌, ◌<◌, ◌≤◌, ◌↔◌, []};
ghost use Rattle.std.specs.Prelude.{replicate, ℕ, false, nat_lt};
ghost use Rattle.std.specs.Prelude.{List, length, not, OnOk, OnErr, IfOk, IfSome, IfNone, IsTrue};
ghost use Rattle.std.specs.Prelude.{if◌then◌else◌, ◌^◌};
ghost use Rattle.mrc_base.specs.declared.Fact.{Fact};
ghost use Rattle.mrc_facts.specs.Sets.{has, with_fact, first, after, IsAscending};
ghost use Rattle.mrc_facts.specs.Order.{right_number, is_same};
ghost use Rattle.mrc_rows.specs.Rows.{IsWithin, Shown, Shows, is_within, row_of, place_of};
ghost use Rattle.mrc_rows.specs.Rows.{words_of};
ghost use Rattle.mrc_rows.specs.Limits.{limit_of_classes, limit_of_words, limit_of_rows};
ghost use Rattle.mrc_rows.specs.Limits.{limit_of_groups, first_group_of_backups};
ghost use Rattle.mrc_rows.specs.Rows.{AreSized, SameBits, OneMoreBit, OneLessBit};
ghost use Rattle.mrc_rows.specs.Rows.{group_of, key_of, plane_of, is_key, IsNextKey, NoKey};
ghost use Rattle.mrc_rows.specs.Rows.{IsFirstFrom, NoneFrom, start_group, start_key};
ghost use Rattle.mrc_rows.specs.Planes.{plane, place_key, key_behind, IsFirstBy, NoneBy};
ghost use Rattle.mrc_rows.specs.Joining.{is_in_both, is_in_row, HasRoom, JoinedBits, ShowJoined};
ghost use Rattle.mrc_rows.specs.ShownProp.{shown_prop};
ghost use Rattle.mrc_bits.specs.Bits.{is_set, fresh_count};

use crate::limits::{
    CLASSES, FIRST_GROUP_OF_BACKUPS, FIRST_ROW_OF_BACKUPS, FIRST_ROW_OF_CARRIES, GROUPS, WORDS,
};
use crate::places::Place;
use crate::planes::Planes;
use mrc_base::limits::TASKS;
use mrc_base::{ClassId, Fact, PortRight};
use mrc_bits::{clear_bit, has_bit, has_fresh, join_bits, set_bit};
use std::alloc::{AllocError, Global};
use std::marker::Model;

/// A set of facts. Each row has the words that it needed so far: at most 21.
#[derive(Debug, Drop)]
pub(crate) struct RowFacts {
    rows: Vec<Vec<u64>>,
    count: usize,
    alloc: Global,
    ghost shown: { Shown rows.items count } by { shown_prop rows.items count },
}

impl Model for RowFacts {
    ghost use Rattle.std.specs.Prelude.{List};
    ghost use Rattle.mrc_base.specs.declared.Fact.{Fact};

    ghost Value = { List Fact };

    ghost view = { λ a. a.shown.0 };
}

/// The number of a right.
pub(crate) fn number(right: PortRight) -> usize
    ensures value { result ≡ right_number right }
    ensures small { result < 3 }
{
    match right {
        PortRight::Send => 0,
        PortRight::Receive => 1,
        PortRight::SendOnce => 2,
    }
}

/// Whether a row has a place for the class.
fn is_class(class: ClassId) -> bool
    ensures { result ≡ nat_lt class limit_of_classes }
{
    (class.0 as usize) < CLASSES
}

/// Whether the fact has a place in a row.
pub(crate) fn is_within(fact: &Fact) -> bool
    ensures { result ≡ is_within fact.now }
{
    match fact {
        Fact::Hold { task, class, .. } => (*task as usize) < TASKS && is_class(*class),
        Fact::Carry {
            destination,
            class,
            ..
        } => is_class(*destination) && is_class(*class),
        Fact::Backup { class, notify } => is_class(*class) && is_class(*notify),
    }
}

/// The fact's row.
fn row_of(fact: &Fact) -> usize
    ensures value { result ≡ row_of fact.now }
    ensures there { IsWithin fact.now → result < limit_of_rows }
{
    match fact {
        Fact::Hold { task, right, .. } => 3 * *task as usize + number(*right),
        Fact::Carry {
            destination,
            right,
            ..
        } => FIRST_ROW_OF_CARRIES + 3 * destination.0 as usize + number(*right),
        Fact::Backup { class, .. } => FIRST_ROW_OF_BACKUPS + class.0 as usize,
    }
}

/// The fact's place in its row.
fn place_of(fact: &Fact) -> usize
    ensures value { result ≡ place_of fact.now }
    ensures few { result < 2 ^ 16 }
    ensures there { IsWithin fact.now → result < limit_of_classes }
{
    match fact {
        Fact::Hold { class, .. } => class.0 as usize,
        Fact::Carry { class, .. } => class.0 as usize,
        Fact::Backup { notify, .. } => notify.0 as usize,
    }
}

/// The words, and so many zeros behind them that there are `count` words.
fn lengthened(alloc: Global, words: &[u64], count: usize) -> Result<Vec<u64>, AllocError>
    requires { length words.now ≤ count }
    ensures { IfOk result (λ row. row.items ≡ words.now ++ replicate (count - length words.now) 0) }
{
    let mut row = Vec::with_capacity(alloc, count)?;
    row.extend_from_slice(words)?;
    row.resize(count, 0)?;
    Ok(row)
}

/// Gives the row so many words at least.
fn make_row(
    alloc: Global,
    rows: &mut Vec<Vec<u64>>,
    row: usize,
    count: usize,
) -> Result<(), AllocError>
    requires row { row < limit_of_rows }
    requires count { count ≤ limit_of_words }
    ensures same { SameBits rows.old.items rows.new.items }
    ensures made { OnOk result (count ≤ length (words_of rows.new.items row)) }
    ensures there { OnOk result (row < length rows.new.items) }
{
    while rows.len() <= row {
        rows.push(Vec::new(alloc))?;
    }
    if rows[row].len() < count {
        rows[row] = lengthened(alloc, rows[row].as_slice(), count)?;
    }
    Ok(())
}

/// How many words of a row can have bits that both have.
fn room_for(more: &[u64], mask: &[u64]) -> usize
    ensures within { result ≤ limit_of_words }
    ensures room { HasRoom more.now mask.now result }
{
    let both = if more.len() < mask.len() {
        more.len()
    } else {
        mask.len()
    };
    if both < WORDS { both } else { WORDS }
}

/// Sets a bit of a row that is made.
fn set_in_row(rows: &mut Vec<Vec<u64>>, row: usize, place: usize)
    requires { place < 64 * length (words_of rows.old.items row) }
    ensures { OneMoreBit rows.old.items rows.new.items row place }
{
    set_bit(rows[row].as_mut_slice(), place);
}

/// Clears a bit of a row that is made.
fn clear_in_row(rows: &mut Vec<Vec<u64>>, row: usize, place: usize)
    requires { place < 64 * length (words_of rows.old.items row) }
    ensures { OneLessBit rows.old.items rows.new.items row place }
{
    clear_bit(rows[row].as_mut_slice(), place);
}

/// Sets the bits of a row that both `more` and `mask` have, as far as it goes. Returns how many of
/// them were not set.
fn join_in_row(rows: &mut Vec<Vec<u64>>, row: usize, more: &[u64], mask: &[u64]) -> usize
    requires there { row < length rows.old.items }
    requires few { 64 * length (words_of rows.old.items row) < 2 ^ 64 }
    ensures joined { JoinedBits rows.old.items rows.new.items row more.now mask.now }
    ensures fresh { result ≡ fresh_count (words_of rows.old.items row) more.now mask.now 0
        (64 * length (words_of rows.old.items row)) }
{
    join_bits(rows[row].as_mut_slice(), more, mask)
}

/// Sets each bit of a row that is long enough if both `more` and `mask` have it. Returns how many
/// facts the rows show then, of those that they showed before.
fn set_both(rows: &mut Vec<Vec<u64>>, shown: usize, row: usize, more: &[u64], mask: &[u64]) -> usize
    requires row { row < limit_of_rows }
    requires there { row < length rows.old.items }
    requires room { HasRoom more.now mask.now (length (words_of rows.old.items row)) }
    requires shown { Shown rows.old.items shown }
    ensures { (facts : List Fact) → Shows rows.old.items shown facts
        → ShowJoined row more.now mask.now facts rows.new.items result }
{
    shown + join_in_row(rows, row, more, mask)
}

/// The first group that may have a fact behind this one, and the place in it that such are behind,
/// if not all of the group are.
fn start_of(fact: &Fact) -> (usize, Option<Place>)
    ensures group { result.0 ≡ start_group fact.now }
    ensures key { key_behind result.1 ≡ start_key fact.now }
    ensures low { IfSome result.1 (λ place. place.0 < 2 ^ 16) }
{
    match fact {
        Fact::Hold { task, class, right } => {
            if (*task as usize) < TASKS {
                (*task as usize, Some((class.0 as usize, *right)))
            } else {
                (TASKS, None)
            }
        }
        Fact::Carry {
            destination,
            class,
            right,
        } => {
            if is_class(*destination) {
                (
                    TASKS + destination.0 as usize,
                    Some((class.0 as usize, *right)),
                )
            } else {
                (FIRST_GROUP_OF_BACKUPS, None)
            }
        }
        Fact::Backup { class, notify } => (
            FIRST_GROUP_OF_BACKUPS + class.0 as usize,
            Some((notify.0 as usize, PortRight::Send)),
        ),
    }
}

/// The right of a number.
pub(crate) fn right_of(number: usize) -> PortRight
    requires { number < 3 }
    ensures { right_number result ≡ number }
{
    if number == 0 {
        PortRight::Send
    } else if number == 1 {
        PortRight::Receive
    } else {
        PortRight::SendOnce
    }
}

/// The fact of a place in a group. In a group of backups the right is the first one.
fn fact_at(group: usize, class: usize, right: PortRight) -> Fact
    requires group { group < limit_of_groups }
    requires class { class < limit_of_classes }
    requires right { first_group_of_backups ≤ group → right_number right ≡ 0 }
    ensures group { group_of result ≡ group }
    ensures key { key_of result ≡ place_key (class, right) }
    ensures within { IsWithin result }
{
    let class = ClassId(class as u16);
    if group < TASKS {
        Fact::Hold {
            task: group as u16,
            class,
            right,
        }
    } else if group < FIRST_GROUP_OF_BACKUPS {
        Fact::Carry {
            destination: ClassId((group - TASKS) as u16),
            class,
            right,
        }
    } else {
        Fact::Backup {
            class: ClassId((group - FIRST_GROUP_OF_BACKUPS) as u16),
            notify: class,
        }
    }
}

/// The words of a row.
fn words_of(rows: &[Vec<u64>], row: usize) -> &[u64]
    ensures { result.now ≡ words_of rows.now row }
{
    match rows.get(row) {
        Some(row) => row.as_slice(),
        None => &[],
    }
}

/// The rows of a group.
fn planes_of(rows: &[Vec<u64>], group: usize) -> Planes<'_>
    requires sized { AreSized rows.now }
    requires group { group < limit_of_groups }
    ensures { (right : ℕ) → right < 3 → plane result right ≡ plane_of rows.now group right }
{
    if group < FIRST_GROUP_OF_BACKUPS {
        Planes {
            send: words_of(rows, 3 * group),
            receive: words_of(rows, 3 * group + 1),
            once: words_of(rows, 3 * group + 2),
        }
    } else {
        let row = FIRST_ROW_OF_BACKUPS + (group - FIRST_GROUP_OF_BACKUPS);
        Planes {
            send: words_of(rows, row),
            receive: &[],
            once: &[],
        }
    }
}

/// The first place of a fact in a group behind this place; without one the first of all.
fn next_in_group(rows: &[Vec<u64>], group: usize, behind: Option<Place>) -> Option<Place>
    requires sized { AreSized rows.now }
    requires group { group < limit_of_groups }
    requires low { IfSome behind (λ place. place.0 < 2 ^ 16) }
    ensures found { IfSome result (λ place.
        IsFirstBy (is_key rows.now group) (key_behind behind) (place_key place)) }
    ensures none { IfNone result (NoneBy (is_key rows.now group) (key_behind behind)) }
{
    planes_of(rows, group).next_behind(behind)
}

/// The first group from this one on that has a fact, in this group one behind this place, and the
/// first such fact's place.
fn next_key(
    rows: &[Vec<u64>],
    group: usize,
    behind: Option<Place>,
) -> Option<(usize, usize, PortRight)>
    requires sized { AreSized rows.now }
    requires low { IfSome behind (λ place. place.0 < 2 ^ 16) }
    ensures found { IfSome result (λ p.
        IsNextKey rows.now group (key_behind behind) p.0 (place_key (p.1, p.2))) }
    ensures none { IfNone result (NoKey rows.now group (key_behind behind)) }
{
    let mut start = behind;
    for k in group..GROUPS {
        if let Some((class, right)) = next_in_group(rows, k, start) {
            return Some((k, class, right));
        }
        start = None;
    }
    None
}

impl RowFacts {
    /// How many facts the set has.
    pub(crate) fn len(&self) -> usize
        ensures value { result ≡ length self.now }
        ensures few { result ≤ 2 ^ 42 }
        ensures ascending { IsAscending self.now }
    {
        self.count
    }

    /// Whether the set has the fact.
    pub(crate) fn has(&self, fact: &Fact) -> bool
        ensures { result ≡ has self.now fact.now }
    {
        is_within(fact)
            && match self.rows.get(row_of(fact)) {
                Some(row) => has_bit(row.as_slice(), place_of(fact)),
                None => false,
            }
    }

    /// Inserts the fact, and returns whether it is new.
    pub(crate) fn insert(&mut self, fact: Fact) -> Result<bool, AllocError>
        requires { IsWithin fact }
        ensures added { IfOk result (λ added. added ≡ not (has self.old fact)) }
        ensures ok { OnOk result (self.new ≡ with_fact self.old fact) }
        ensures err { OnErr result (self.new ≡ self.old) }
    {
        if self.has(&fact) {
            return Ok(false);
        }
        let row = row_of(&fact);
        let place = place_of(&fact);
        make_row(self.alloc, &mut self.rows, row, place / 64 + 1)?;
        set_in_row(&mut self.rows, row, place);
        self.count += 1;
        Ok(true)
    }

    /// Inserts the facts of the row whose places both `more` and `mask` have.
    pub(crate) fn join(&mut self, row: usize, more: &[u64], mask: &[u64]) -> Result<(), AllocError>
        requires row { row < limit_of_rows }
        requires few { length more.now ≤ limit_of_words }
        ensures ok { OnOk result ((g : Fact) → has self.new g
            ≡ (has self.old g || (is_in_row row g && is_in_both more.now mask.now (place_of g)))) }
        ensures err { OnErr result (self.new ≡ self.old) }
        ensures ascending { IsAscending self.new }
    {
        if !has_fresh(words_of(self.rows.as_slice(), row), more, mask) {
            return Ok(());
        }
        make_row(self.alloc, &mut self.rows, row, room_for(more, mask))?;
        self.count = set_both(&mut self.rows, self.count, row, more, mask);
        Ok(())
    }

    /// The empty set. It keeps the allocator.
    pub(crate) fn new(alloc: Global) -> RowFacts
        ensures { result ≡ [] }
    {
        RowFacts {
            rows: Vec::new(alloc),
            count: 0,
            alloc,
        }
    }

    /// The words of a row.
    pub(crate) fn words(&self, row: usize) -> &[u64]
        ensures shown { (f : Fact) → row_of f ≡ row → IsWithin f →
            has self.now f ≡ is_set result.now (place_of f) }
        ensures few { length result.now ≤ limit_of_words }
    {
        words_of(self.rows.as_slice(), row)
    }

    /// Whether there may be a backup: there is none if no row of backups is made.
    pub(crate) fn may_have_backups(&self) -> bool
        ensures { result ≡ false → (c d : ℕ) → IsWithin (Fact.Backup c d) →
            has self.now (Fact.Backup c d) ≡ false }
    {
        self.rows.len() > FIRST_ROW_OF_BACKUPS
    }

    /// The least fact of the groups from this one on, in this group of those behind this place.
    fn first_from(&self, group: usize, behind: Option<Place>) -> Option<Fact>
        requires { IfSome behind (λ place. place.0 < 2 ^ 16) }
        ensures found { IfSome result (IsFirstFrom self.now group (key_behind behind)) }
        ensures none { IfNone result (NoneFrom self.now group (key_behind behind)) }
        ensures ascending { IsAscending self.now }
        ensures within { (g : Fact) → IsTrue (has self.now g) → IsWithin g }
    {
        let (group, class, right) = next_key(self.rows.as_slice(), group, behind)?;
        Some(fact_at(group, class, right))
    }

    /// The least fact.
    pub(crate) fn first(&self) -> Option<Fact>
        ensures { result ≡ first self.now }
    {
        self.first_from(0, None)
    }

    /// The least fact that is greater than this one, which need not be in the set.
    pub(crate) fn after(&self, fact: &Fact) -> Option<Fact>
        ensures { result ≡ after self.now fact.now }
    {
        let (group, behind) = start_of(fact);
        self.first_from(group, behind)
    }

    /// Removes the fact, if the set has it.
    pub(crate) fn remove(&mut self, fact: &Fact)
        ensures members { (g : Fact) →
            has self.new g ≡ (not (is_same g fact.now) && has self.old g) }
        ensures ascending { IsAscending self.new }
    {
        if !self.has(fact) {
            return;
        }
        clear_in_row(&mut self.rows, row_of(fact), place_of(fact));
        self.count -= 1;
    }
}
