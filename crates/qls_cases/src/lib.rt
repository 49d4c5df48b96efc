//! Whole runs of scripts on a site in memory, one after another: what is answered, and what lies there after a script, a fault or a
//! crash. Tests alone.
#![tactic(auto)]

#[cfg(test)]
mod continuing;
#[cfg(test)]
mod deciding;
#[cfg(test)]
mod faults;
#[cfg(test)]
mod growing;
#[cfg(test)]
mod outside;
#[cfg(test)]
mod pools;
#[cfg(test)]
mod reopening;
#[cfg(test)]
mod returning;
#[cfg(test)]
mod scripts;
#[cfg(test)]
mod showing;
#[cfg(test)]
mod stored;
