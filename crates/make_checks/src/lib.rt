// Both makes of store and of printer, and the line layer, on examples: every test is proved to end safely, and then run.
#![tactic(auto)]

#[cfg(test)]
mod papers_fill;
#[cfg(test)]
mod stores_fill;
