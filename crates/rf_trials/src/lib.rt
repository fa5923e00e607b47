//! Trials of the crates below: their public calls over values that were worked out by hand, and problems and shows that
//! are made as if by chance, each beside a plain way to the same answer. There is nothing here for a program.
#![tactic(auto)]

#[cfg(test)]
mod audits;
#[cfg(test)]
mod blocking;
#[cfg(test)]
mod chances;
#[cfg(test)]
mod copies;
#[cfg(test)]
mod domains;
#[cfg(test)]
mod editors;
#[cfg(test)]
mod engines;
#[cfg(test)]
mod exclusions;
#[cfg(test)]
mod hold;
#[cfg(test)]
mod lines;
#[cfg(test)]
mod logs;
#[cfg(test)]
mod margins;
#[cfg(test)]
mod outside;
#[cfg(test)]
mod plans;
#[cfg(test)]
mod problems;
#[cfg(test)]
mod rounds;
#[cfg(test)]
mod searches;
#[cfg(test)]
mod shows;
#[cfg(test)]
mod tables;
#[cfg(test)]
mod terms;
#[cfg(test)]
mod trails;
#[cfg(test)]
mod words;
#[cfg(test)]
mod zones;
