// What the other crates are tried on, by tables of cases with answers that were worked out by hand.
#![tactic(auto)]

#[cfg(test)]
mod file_runs;
#[cfg(test)]
mod line_cases;
mod odd_rule;
#[cfg(test)]
mod raised_cases;
#[cfg(test)]
mod rollover_day;
mod specimens;
