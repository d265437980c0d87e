// Values, names, lines of a card and a search on examples: every test is proved to end safely, and then run.
#![tactic(auto)]

#[cfg(test)]
mod cards_read;
#[cfg(test)]
mod keys_search;
#[cfg(test)]
mod values_form;
