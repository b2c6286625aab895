//! Runs of calls over both stores, and a database that is handed back and opened again.
#![tactic(auto)]

#[cfg(test)]
mod runs;
