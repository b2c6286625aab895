//! A desk in memory and one in a database answer a list of calls alike, and what was stored outlives the connection.
use pt_base_values::{CallerId, Day, Minute, Moment, Residence, Rider, RiderId, Rule};
use pt_desk::{Call, run};
use pt_desk_requests::{Answer, Caller, Digest, Request, Role, Write};
use pt_desk_store::{Keeper, ListKeeper, Reply};
use pt_rights_files::Entry;
use pt_tables::{adopt, create};
use sqlite::Connection;
use std::alloc::Global;
use std::process::Abort;
use std::test::Fail;

const ADMIN: &[u8] = b"abc";

const CLERK: &[u8] = b"hello";

/// The answer to a call, as far as these calls can have one.
#[derive(Clone, Copy, PartialEq, Eq)]
enum Said {
    Done,
    Entered(u32),
    Denied(Rule),
    Other,
}

fn said_in(reply: &Reply) -> Said {
    match reply {
        Ok(Answer::Done) => Said::Done,
        Ok(Answer::Entered(position)) => Said::Entered(*position),
        Ok(Answer::Denied(rule)) => Said::Denied(*rule),
        _ => Said::Other,
    }
}

fn eight_in_the_morning() -> Result<Moment, Fail> {
    Ok((
        Day::parse("2025-02-17")?,
        Minute::of(480).ok_or("a minute")?,
    ))
}

fn rider(number: u32) -> Result<RiderId, Fail> {
    Ok(RiderId::of(number).ok_or("a rider")?)
}

fn put_clerk() -> Result<Write, Fail> {
    Ok(Write::PutCaller(Caller {
        id: CallerId::of(2).ok_or("a caller")?,
        role: Role::Clerk,
        digest: Digest::of_key(CLERK),
    }))
}

fn put_rider(number: u32) -> Result<Write, Fail> {
    Ok(Write::PutRider(Rider {
        id: rider(number)?,
        kind: Residence::Resident,
        attendant: false,
        wheelchair: false,
    }))
}

fn complete(number: u32) -> Result<Write, Fail> {
    Ok(Write::Enter {
        rider: rider(number)?,
        entry: Entry::Complete,
    })
}

fn call(alloc: Global, key: &[u8], number: u32, write: Write) -> Result<Call, Fail> {
    Ok(Call {
        now: eight_in_the_morning()?,
        key: Vec::from_slice(alloc, key)?,
        number,
        request: Request::Write(write),
    })
}

/// The clerk's number 7 is accepted. The same again gets the same answer and enters nothing more. Number 7 with another
/// request, and number 6, are denied. Number 8 is denied by a rule, and then accepted with another request.
fn calls(alloc: Global) -> Result<[Call; 9], Fail> {
    Ok([
        call(alloc, ADMIN, 1, put_clerk()?)?,
        call(alloc, CLERK, 1, put_rider(7)?)?,
        call(alloc, CLERK, 7, complete(7)?)?,
        call(alloc, CLERK, 7, complete(7)?)?,
        call(alloc, CLERK, 7, put_rider(8)?)?,
        call(alloc, CLERK, 6, complete(7)?)?,
        call(alloc, CLERK, 8, complete(9)?)?,
        call(alloc, CLERK, 8, put_rider(8)?)?,
        call(alloc, b"hallo", 9, put_rider(9)?)?,
    ])
}

const ANSWERS: [Said; 9] = [
    Said::Done,
    Said::Done,
    Said::Entered(0),
    Said::Entered(0),
    Said::Denied(Rule::Number),
    Said::Denied(Rule::Number),
    Said::Denied(Rule::Unknown),
    Said::Done,
    Said::Denied(Rule::Key),
];

/// Runs all calls, and compares the answer to each, and how many riders there are then.
fn run_all<K: Keeper>(rt: &impl Abort, alloc: Global, keeper: &mut K) -> Result<(), Fail> {
    let replies = run(alloc, keeper, calls(alloc)?.as_slice())?;
    assert!(rt; replies.len() == ANSWERS.len());
    for (reply, answer) in replies.iter().zip(ANSWERS) {
        assert!(rt; said_in(reply) == answer);
    }
    let riders = keeper.rider_count().map_err(|_| "riders")?;
    assert!(rt; riders == 2);
    Ok(())
}

/// The clerk's last call comes again and gets the same answer. One further call is new.
fn run_on<K: Keeper>(rt: &impl Abort, alloc: Global, keeper: &mut K) -> Result<(), Fail> {
    let later = [
        call(alloc, CLERK, 8, put_rider(8)?)?,
        call(alloc, CLERK, 9, complete(8)?)?,
    ];
    let replies = run(alloc, keeper, later.as_slice())?;
    assert!(rt; replies.len() == 2);
    for (reply, answer) in replies.iter().zip([Said::Done, Said::Entered(0)]) {
        assert!(rt; said_in(reply) == answer);
    }
    Ok(())
}

#[test]
fn a_desk_in_memory_answers_a_run(rt: HostRuntime) -> Result<(), Fail> {
    let mut keeper = ListKeeper::new(rt.alloc(), ADMIN)?;
    run_all(&rt, rt.alloc(), &mut keeper)?;
    run_on(&rt, rt.alloc(), &mut keeper)
}

#[test]
fn a_desk_in_a_database_answers_a_run_and_is_opened_again(rt: HostRuntime) -> Result<(), Fail> {
    let alloc = rt.alloc();
    let conn = Connection::open_in_memory(alloc)?;
    let Ok(mut keeper) = create(alloc, conn, ADMIN) else {
        return Err("not created".into());
    };
    run_all(&rt, alloc, &mut keeper)?;
    let Ok(mut again) = adopt(alloc, keeper.release()) else {
        return Err("not opened again".into());
    };
    run_on(&rt, alloc, &mut again)
}
