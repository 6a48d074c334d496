//! How many classes, rows and groups of facts there are, each by one name.

ghost use Rattle.std.specs.Prelude.{◌≡◌};
ghost use Rattle.mrc_rows.specs.Limits as limit;

/// Classes of ports of a wiring, at most: those of wired ports, of kernel ports and of births.
pub const CLASSES: usize = 1344;
/// Words of a row, at most: they have a bit for each class.
pub const WORDS: usize = 21;
/// The number of the first row of carries. Each task has three rows of holds before it.
pub const FIRST_ROW_OF_CARRIES: usize = 192;
/// The number of the first row of backups. Each class has three rows of carries before it.
pub const FIRST_ROW_OF_BACKUPS: usize = 4224;
/// Rows, at most. Each class has one of backups, the last ones.
pub const ROWS: usize = 5568;
/// The number of the first group of backups. Each task and each class has a group before it.
pub const FIRST_GROUP_OF_BACKUPS: usize = 1408;
/// Groups, at most.
pub const GROUPS: usize = 2752;

/// The code's limits are those of the definitions.
pub fn limits_are_defined()
    ensures classes { CLASSES ≡ limit.limit_of_classes }
    ensures words { WORDS ≡ limit.limit_of_words }
    ensures first_row_of_carries { FIRST_ROW_OF_CARRIES ≡ limit.first_row_of_carries }
    ensures first_row_of_backups { FIRST_ROW_OF_BACKUPS ≡ limit.first_row_of_backups }
    ensures rows { ROWS ≡ limit.limit_of_rows }
    ensures first_group_of_backups { FIRST_GROUP_OF_BACKUPS ≡ limit.first_group_of_backups }
    ensures groups { GROUPS ≡ limit.limit_of_groups }
{}
