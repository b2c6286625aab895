//! Requests to the desk as HTTP messages: the request in a message, or its first fault.
#![tactic(auto)]

pub use fault::{AllowedMethod, MessageFault, RequestFault};
pub use field_name::FieldName;
pub use headers::body_length;
pub use message::{Message, message_from};
pub use targets::{Path, Target, WriteTarget, desk_router};

mod callers;
mod conditions;
mod entries;
mod fault;
mod field_name;
mod fields;
mod headers;
mod message;
mod numbers;
mod places;
mod policy;
mod riders;
mod routes;
mod targets;
mod trips;
mod vehicles;
