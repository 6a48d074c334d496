//! Laws of what lines say, proved of the definitions alone.
ghost use Rattle.mrc_wide_text.specs.WideLaws.{TasksAreRead};

/// TASKS are read as they are spelled.
pub fn tasks_are_read()
    ensures { TasksAreRead }
{}
