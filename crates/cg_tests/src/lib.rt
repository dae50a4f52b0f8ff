//! Tests of the libraries over their public calls: what no contract says, and that calls which take memory succeed where
//! there is enough. What the program reads and writes is shown on the built program, and not here.
#![tactic(auto)]

#[cfg(test)]
mod desk;
#[cfg(test)]
mod libraries;
#[cfg(test)]
mod machine;
#[cfg(test)]
mod opening;
#[cfg(test)]
mod printed;
#[cfg(test)]
mod replaying;
#[cfg(test)]
mod runner;
#[cfg(test)]
mod telling;
#[cfg(test)]
mod views;
