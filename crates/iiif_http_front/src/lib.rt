//! HTTP/1.x: heads of requests, read from any reader, and heads of answers.
#![tactic(auto)]

pub use answer_head::{Field, head_bytes};
pub use call::Call;
pub use head_fault::HeadFault;
pub use heads::{Heads, NoMemory};
pub use method::Method;
pub use other_method::OtherMethod;
pub use status::Status;

pub mod answer_head;
pub mod call;
mod fields;
pub mod head_fault;
pub mod heads;
pub mod laws;
pub mod method;
pub mod other_method;
mod search;
pub mod status;
mod unread;
