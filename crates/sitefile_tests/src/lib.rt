// Site files read as a customer reads them: a crate of its own, since a crate with tests is proved twice.
#![tactic(auto)]

#[cfg(test)]
mod floors;
#[cfg(test)]
mod numbers;
#[cfg(test)]
mod shared;
#[cfg(test)]
mod tapes;
