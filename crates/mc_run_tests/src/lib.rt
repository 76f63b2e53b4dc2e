//! Tests of whole runs over keepers in memory and in SQLite files, and of the keeper over SQLite beside the one in memory:
//! the same scripts are answered alike, and what the keepers hold is the same; tables that are damaged; and stores of layout 1.
#![tactic(auto)]

#[cfg(test)]
mod both;
#[cfg(test)]
mod damage;
#[cfg(test)]
mod downgraded;
#[cfg(test)]
mod drawing;
#[cfg(test)]
mod drawn;
#[cfg(test)]
mod earlier;
#[cfg(test)]
mod failing;
#[cfg(test)]
mod files;
#[cfg(test)]
mod gathering;
#[cfg(test)]
mod limits;
#[cfg(test)]
mod lines;
#[cfg(test)]
mod rows;
#[cfg(test)]
mod runs;
#[cfg(test)]
mod shown;
#[cfg(test)]
mod words;
#[cfg(test)]
mod worlds;
