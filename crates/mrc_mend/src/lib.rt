//! How to mend a wiring whose policy is broken: changes after which the answer is yes, each of
//! which was judged as it is printed.
#![tactic(auto)]

mod answers;
mod carrying;
mod causes;
mod changes;
mod counting;
mod cutting;
mod extending;
mod heading;
mod judging;
mod looking;
mod losing;
mod narrowing;
mod printing;
mod searching;
mod stepping;
mod telling;
mod trusting;
mod weighing;

pub use answers::{Answer, Mend, Mends, Progress, find_mends};
pub use causes::Cause;
pub use changes::{
    Change, Limitation, NamedClass, Narrowing, Restriction, admit_line, class_line, mended,
    trust_line,
};
pub use printing::mends_text;
