#![tactic(auto)]

#[cfg(test)]
mod astray;
#[cfg(test)]
mod bench;
#[cfg(test)]
mod pairs;
#[cfg(test)]
mod refusals;
#[cfg(test)]
mod replay;
#[cfg(test)]
mod single;
#[cfg(test)]
mod sizes;
#[cfg(test)]
mod staging;
#[cfg(test)]
mod weights;
#[cfg(test)]
mod worked;
