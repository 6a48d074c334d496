//! What holds of the filter's answers.

ghost use Rattle.mrc_filter.specs.Laws.{AdmittingIsSending};
ghost use Rattle.mrc_filter.specs.Meeting.{JudgingIsMeeting};

/// The definitions judge a message by its first form, place by place: an answer is theirs exactly
/// where it is what the form and the message have in those places.
pub fn judging_is_meeting()
    ensures meeting { JudgingIsMeeting }
{}

/// What `admit_port` answers of a live port's class is what sending a message asks of that port
/// before it asks whether the sender may send the right.
pub fn admitting_is_sending()
    ensures sending { AdmittingIsSending }
{}
