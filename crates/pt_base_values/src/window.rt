use crate::Minute;

/// The first and the last minute of the day at which a pickup may begin.
#[derive(Clone, Copy)]
pub struct Window {
    pub from: Minute,
    pub to: Minute,
}
