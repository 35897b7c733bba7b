// Does each instruction do what the cases worked by hand say?
#![tactic(auto)]

#[cfg(test)]
mod bits;
#[cfg(test)]
mod branches;
#[cfg(test)]
mod case;
#[cfg(test)]
mod check;
#[cfg(test)]
mod costs;
#[cfg(test)]
mod entry;
#[cfg(test)]
mod faults;
#[cfg(test)]
mod first_set;
#[cfg(test)]
mod jumps;
#[cfg(test)]
mod loads;
#[cfg(test)]
mod loops;
#[cfg(test)]
mod modify;
#[cfg(test)]
mod stack;
#[cfg(test)]
mod stores;
#[cfg(test)]
mod words;
