//! What `pt_app` hands on: its line of words, and one connection.
use pt_app_command_line::{Line, line};
use pt_app_serve::serve_one;
use pt_base::{Day, Fault, Minute};
use pt_desk::Keeper;
use std::alloc::Global;
use std::net::TcpStream;
use std::time::Clock;

pub fn line_of<'a>(alloc: Global, words: &'a [String]) -> Result<Line<'a>, Fault> {
    line(alloc, words)
}

pub fn served<C: Clock, K: Keeper>(
    clock: &C,
    alloc: Global,
    keeper: &mut K,
    now: (Day, Minute),
    stream: &TcpStream,
) -> Result<(), Fault> {
    serve_one(clock, alloc, keeper, now, stream)
}

/// The number of words of a line after the program's name: the command, and each field.
pub fn word_count(line: &Line<'_>) -> usize {
    match *line {
        Line::Rehearse { key: _ } => 2,
        Line::Init { file: _, key: _ } => 3,
        Line::Serve {
            file: _,
            zone: _,
            port: _,
            count: _,
        } => 5,
        Line::Travel {
            file: _,
            zone: _,
            key: _,
            number: _,
            day: _,
            csv: _,
        } => 7,
        Line::Manifest {
            file: _,
            zone: _,
            key: _,
            vehicle: _,
            day: _,
        } => 6,
        Line::Trips {
            file: _,
            zone: _,
            key: _,
            day: _,
        } => 5,
        Line::Explain {
            file: _,
            zone: _,
            key: _,
            rider: _,
            day: _,
            wish: _,
            from: _,
            to: _,
            by: _,
            attendant: _,
            companions: _,
        } => 12,
        Line::Audit {
            log: _,
            file: _,
            zone: _,
            key: _,
            rider: _,
            day: _,
            wish: _,
            from: _,
            to: _,
            by: _,
            attendant: _,
            companions: _,
        } => 13,
        Line::Migrate { file: _ } => 2,
    }
}
