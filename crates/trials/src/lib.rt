// Does it do what the worked examples say?
#![tactic(auto)]

#[cfg(test)]
mod arithmetic;
#[cfg(test)]
mod check;
#[cfg(test)]
mod interrupts;
#[cfg(test)]
mod life;
#[cfg(test)]
mod limits;
#[cfg(test)]
mod memory;
#[cfg(test)]
mod orders;
#[cfg(test)]
mod printed;
#[cfg(test)]
mod programs;
#[cfg(test)]
mod reading;
#[cfg(test)]
mod records;
