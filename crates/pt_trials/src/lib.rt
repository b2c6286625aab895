//! Examples for the planner's crates and for logs of refusals. The best place of a trip and logs are also compared with
//! plain second evaluations, over many cases from fixed seeds. `tests/second_desk` compares the whole desk.
#![tactic(auto)]

#[cfg(test)]
mod asking;
#[cfg(test)]
mod audits;
#[cfg(test)]
mod dice;
#[cfg(test)]
mod four_places;
#[cfg(test)]
mod insertion;
#[cfg(test)]
mod instances;
#[cfg(test)]
mod logs;
#[cfg(test)]
mod numbers;
#[cfg(test)]
mod places;
#[cfg(test)]
mod plain;
#[cfg(test)]
mod routes;
#[cfg(test)]
mod table_rows;
#[cfg(test)]
mod times;
#[cfg(test)]
mod written_logs;
