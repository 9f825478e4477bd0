// Examples of what the libraries do, as tests.
#![tactic(auto)]

#[cfg(test)]
mod books;
#[cfg(test)]
mod edits;
#[cfg(test)]
mod limits;
#[cfg(test)]
mod measures;
#[cfg(test)]
mod rules;
#[cfg(test)]
mod searches;
#[cfg(test)]
mod six;
#[cfg(test)]
mod texts;
#[cfg(test)]
mod written;
