//! `pt_http`: requests in bytes.
use pt_base::{Day, Fault, Minute};
use pt_desk::Keeper;
use pt_http::{Inbox, answer_bytes, rehearse};
use std::alloc::{AllocError, Global};
use std::io::{Read, Write};

pub fn inbox<R: Read + Drop>(alloc: Global, reader: R) -> Result<Inbox<R>, AllocError> {
    Inbox::new(alloc, reader)
}

pub fn answered<K: Keeper, R: Read + Drop, W: Write>(
    alloc: Global,
    keeper: &mut K,
    now: (Day, Minute),
    inbox: &mut Inbox<R>,
    out: &mut W,
) -> Result<(), Fault> {
    answer_bytes(alloc, keeper, now, inbox, out)
}

pub fn rehearsed<K: Keeper, R: Read + Drop, W: Write>(
    alloc: Global,
    keeper: &mut K,
    inbox: &mut Inbox<R>,
    out: &mut W,
) -> Result<(), Fault> {
    rehearse(alloc, keeper, inbox, out)
}
