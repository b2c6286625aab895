//! A few requests, and their replies.
use pt_base_values::{CallerId, Day, Minute, Moment};
use pt_desk_store::{Keeper, ListKeeper};
use std::process::Abort;

/// The admin with the key `abc` puts the clerk with the key `hello`.
pub(crate) const PUT_CLERK: &str =
    "POST /callers HTTP/1.1\r\nDesk-Key: abc\r\nDesk-Number: 1\r\nContent-Length: 111\r\n\r\n\
    {\"id\":2,\"role\":\"clerk\",\"subject\":0,\
    \"digest\":\"2cf24dba5fb0a30e26e83b2ac5b9e29e1b161e5c1fa7425e73043362938b9824\"}";

pub(crate) const PUT_RIDER: &str =
    "POST /riders HTTP/1.1\r\nDesk-Key: hello\r\nDesk-Number: 1\r\nContent-Length: 44\r\n\r\n\
    {\"id\":7,\"kind\":\"resident\",\"attendant\":false}";

pub(crate) const COMPLETE: &str =
    "POST /riders/7/entries HTTP/1.1\r\nDesk-Key: hello\r\nDesk-Number: 2\r\nContent-Length: 20\r\n\r\n\
    {\"entry\":\"complete\"}";

pub(crate) const STANDING: &str =
    "GET /riders/7/standing/2025-03-14 HTTP/1.1\r\nDesk-Key: hello\r\nContent-Length: 0\r\n\r\n";

/// The reply to a write that is done.
pub(crate) const DONE: &str =
    "HTTP/1.1 200 OK\r\nContent-Type: application/json\r\nContent-Length: 13\r\nConnection: close\r\n\r\n\
    {\"done\":true}";

pub(crate) fn eight_in_the_morning(rt: &impl Abort) -> Moment {
    let day = Day::parse("2025-02-17").expect(rt, "a day");
    (day, Minute::of(480).unwrap())
}

/// Whether the clerk has been put.
pub(crate) fn has_clerk(rt: &impl Abort, keeper: &mut ListKeeper) -> bool {
    let clerk = keeper.caller(CallerId::of(2).unwrap());
    clerk.expect(rt, "callers").is_some()
}
