//! Small weeks on which planners go astray, planned by the running code.
#![tactic(auto)]

#[cfg(test)]
mod tests;
#[cfg(test)]
mod trial;
