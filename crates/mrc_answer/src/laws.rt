//! What the answers of `verify` and `attack` mean for the machine, proved of the definitions alone.

ghost use Rattle.mrc_answer.specs.VerifiedLaws.{AllowedIsSafe, WaivedIsSafe, BrokenHasNoYes};
ghost use Rattle.mrc_answer.specs.VerifiedLaws.{UnmetIsNeverHeld};
ghost use Rattle.mrc_answer.specs.VerifiedLaws.{UnattackedIsSafe, AttackedHasNoYes};

/// If `verify` answers yes of files, the texts that they hold mean a claim, and no list of calls
/// from the first state of their wiring ends in a breach of their policy. If it answers the lines
/// that are broken, no certificate is accepted for these texts; and what it tells as expected and
/// lacking comes about in no run.
pub fn verified_files_are_so()
    ensures safe { AllowedIsSafe }
    ensures waived { WaivedIsSafe }
    ensures no { BrokenHasNoYes }
    ensures unmet { UnmetIsNeverHeld }
{}

/// The same of what `attack` answers: yes, or what is exposed and broken.
pub fn attacked_files_are_so()
    ensures safe { UnattackedIsSafe }
    ensures no { AttackedHasNoYes }
{}
