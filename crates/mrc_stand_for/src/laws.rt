//! Laws of what lines stand for, proved of the definitions alone.
ghost use Rattle.mrc_stand_for.specs.ProductLaws.{BirthsAreOfEachTask, RepliesAreOfEachTask};
ghost use Rattle.mrc_stand_for.specs.ProductLaws.{KindsCountUp, OncesAreProducts};
ghost use Rattle.mrc_stand_for.specs.ProductLaws.{AdmitsAreProducts, TrustsAreProducts};
ghost use Rattle.mrc_stand_for.specs.ProductLaws.{NonesAreProducts};
ghost use Rattle.mrc_stand_for.specs.ListLaws.{AllButAreTheOthers, OthersAreNotTheHolder};
ghost use Rattle.mrc_stand_for.specs.OldLaws.{BirthsOfOneTask, SendOfOneTask, OnceOfOneTask};
ghost use Rattle.mrc_stand_for.specs.OldLaws.{KernelOfOneTask};
ghost use Rattle.mrc_stand_for.specs.ListLaws.{AnyHasEachKind, AllAreOfTheText};
ghost use Rattle.mrc_stand_for.specs.PolicyLaws.{ClassesStandForThemselves};

/// What lists that leave tasks out have, and `any`.
pub fn lists_leave_out()
    ensures all_but { AllButAreTheOthers }
    ensures others { OthersAreNotTheHolder }
    ensures any { AnyHasEachKind }
{}

/// A line stands for the product of its lists.
pub fn lines_are_products()
    ensures births { BirthsAreOfEachTask }
    ensures replies { RepliesAreOfEachTask }
    ensures kinds { KindsCountUp }
    ensures onces { OncesAreProducts }
    ensures admits { AdmitsAreProducts }
    ensures trusts { TrustsAreProducts }
    ensures nones { NonesAreProducts }
{}

/// Once a line has named all tasks, no line below adds one.
pub fn all_are_of_the_text()
    ensures { AllAreOfTheText }
{}

/// A line of one name in each of its lists is the line of version 3 with these names.
pub fn one_name_is_one_line()
    ensures births { BirthsOfOneTask }
    ensures send { SendOfOneTask }
    ensures once { OnceOfOneTask }
    ensures kernel { KernelOfOneTask }
{}

/// Over a wiring none of whose wired ports is births, each class of a policy stands for itself.
pub fn classes_stand_for_themselves()
    ensures { ClassesStandForThemselves }
{}
