//! Memory that is refused while a request is answered.
use crate::requests::{COMPLETE, PUT_CLERK, PUT_RIDER, STANDING, eight_in_the_morning};
use arrayvec::ArrayVec;
use pt_base_values::{CallerId, Cause, Fault, Moment, TripId};
use pt_desk_requests::Write;
use pt_desk_rules::Arrival;
use pt_desk_spelling::spell;
use pt_desk_store::{Keeper, ListKeeper};
use pt_http_exchange::answer_bytes;
use pt_http_inbox::Inbox;
use std::alloc::{AllocError, Global};
use std::process::Abort;

/// The part of the desk's content that the exchanges below could change.
#[derive(Clone, Copy, PartialEq, Eq)]
struct Snapshot {
    callers: usize,
    riders: usize,
    /// Whether the numbers that the admin and the clerk use are new.
    numbers: [bool; 3],
}

/// Whether a write of the caller with this number would be a new one.
fn is_new(
    rt: &impl Abort,
    alloc: Global,
    keeper: &mut ListKeeper,
    caller: CallerId,
    number: u32,
) -> bool {
    let asked = Write::Cancel(TripId::of(1).unwrap());
    let request = spell(alloc, &asked).or_else(|_| spell(alloc, &asked));
    let request = request.expect(rt, "memory");
    let arrival = keeper.arrival(caller, number, &request);
    matches!(arrival.expect(rt, "an arrival"), Arrival::New)
}

fn seen(rt: &impl Abort, alloc: Global, keeper: &mut ListKeeper) -> Snapshot {
    let (admin, clerk) = (CallerId::of(1).unwrap(), CallerId::of(2).unwrap());
    Snapshot {
        callers: keeper.caller_count().expect(rt, "callers"),
        riders: keeper.rider_count().expect(rt, "riders"),
        numbers: [
            is_new(rt, alloc, keeper, admin, 1),
            is_new(rt, alloc, keeper, clerk, 1),
            is_new(rt, alloc, keeper, clerk, 2),
        ],
    }
}

fn inbox_with<'b>(alloc: Global, request: &'b str) -> Result<Inbox<&'b [u8]>, AllocError> {
    Inbox::new(alloc, request.as_bytes()).or_else(|_| Inbox::new(alloc, request.as_bytes()))
}

fn least_desk(alloc: Global) -> Result<ListKeeper, Fault> {
    ListKeeper::new(alloc, b"abc").or_else(|_| ListKeeper::new(alloc, b"abc"))
}

/// The result of a first try.
#[derive(Clone, Copy)]
enum FirstTry {
    Answered,
    /// The request was read, and the reply names the refusal of memory.
    Denied,
    /// There was no reply.
    Unheard,
}

/// The result of one try.
fn told(
    alloc: Global,
    keeper: &mut ListKeeper,
    now: Moment,
    inbox: &mut Inbox<&[u8]>,
    out: &mut ArrayVec<u8, 512>,
) -> Result<(), Fault> {
    answer_bytes(alloc, keeper, now, inbox, out)
}

/// Tries once. If memory is refused, nothing may change.
fn first_try(
    rt: &impl Abort,
    alloc: Global,
    keeper: &mut ListKeeper,
    inbox: &mut Inbox<&[u8]>,
    out: &mut ArrayVec<u8, 512>,
) -> FirstTry {
    let before = seen(rt, alloc, keeper);
    let told = told(alloc, keeper, eight_in_the_morning(rt), inbox, out);
    if told == Ok(()) && !out.ends_with(b"{\"denied\":\"desk.memory\"}") {
        return FirstTry::Answered;
    }
    let named = told.is_ok() || (told == Err(Fault::of(Cause::Memory)) && out.is_empty());
    let same = named && seen(rt, alloc, keeper) == before;
    assert!(rt; same, "a refusal that changes nothing");
    if told.is_ok() {
        FirstTry::Denied
    } else {
        FirstTry::Unheard
    }
}

/// Replies to a request that is in the inbox, and again if memory was refused.
fn reply_from<'b>(
    rt: &impl Abort,
    alloc: Global,
    keeper: &mut ListKeeper,
    request: &'b str,
    inbox: &mut Inbox<&'b [u8]>,
    out: &mut ArrayVec<u8, 512>,
) {
    match first_try(rt, alloc, keeper, inbox, out) {
        FirstTry::Answered => return,
        FirstTry::Denied => {
            *inbox = inbox_with(alloc, request).expect(rt, "memory");
            out.clear();
        }
        FirstTry::Unheard => {}
    }
    let now = eight_in_the_morning(rt);
    told(alloc, keeper, now, inbox, out).expect(rt, request);
}

/// Replies to a request, and compares the reply's body.
fn compare_reply(
    rt: &impl Abort,
    alloc: Global,
    keeper: &mut ListKeeper,
    request: &str,
    body: &str,
) {
    let mut inbox = inbox_with(alloc, request).expect(rt, "memory");
    let mut out = ArrayVec::new();
    reply_from(rt, alloc, keeper, request, &mut inbox, &mut out);
    assert!(rt; out.ends_with(body.as_bytes()), "{request}");
}

/// Requests, and how their replies end.
const EXCHANGES: [(&str, &str); 4] = [
    (PUT_CLERK, "{\"done\":true}"),
    (PUT_RIDER, "{\"done\":true}"),
    (COMPLETE, "{\"entered\":0}"),
    (STANDING, "{\"standing\":\"none\",\"suspended\":false}"),
];

fn compare_replies(rt: &impl Abort, alloc: Global, keeper: &mut ListKeeper) {
    for (request, body) in &EXCHANGES {
        compare_reply(rt, alloc, keeper, request, body);
    }
}

/// Passes with any one allocation refused: `rt try --test --fail-alloc N`.
#[test]
fn a_refusal_of_memory_is_named_and_changes_nothing(rt: HostRuntime) {
    let alloc = rt.alloc();
    let mut keeper = least_desk(alloc).expect(&rt, "memory");
    compare_replies(&rt, alloc, &mut keeper);
}
