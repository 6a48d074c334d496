//! The machine: tasks with their spaces, and ports, changed by one call of one task at a time.
#![tactic(auto)]

mod allocate;
mod breach;
mod call;
mod copies;
mod create_task;
mod dropping;
mod extract_right;
mod first;
mod get_refs;
mod holding;
mod insert_right;
mod move_member;
mod names;
mod port_type;
mod receive;
mod refusal;
mod rename;
mod reply;
mod request_notification;
mod room;
mod send;
mod set_qlimit;
mod state;
mod step;
mod task;
mod terminate;
mod world;

pub use call::Call;
pub use holding::Holding;
pub use reply::Reply;
pub use room::Room;
pub use world::World;
