//! Tests of what the program is handed from outside: files, sinks, streams and links; of a wire in one process, with
//! connections that give back what they get; and of the loop over many connections, with a server of such.
#![tactic(auto)]

#[cfg(test)]
mod fails;
#[cfg(test)]
mod line;
#[cfg(test)]
mod lines;
#[cfg(test)]
mod links;
#[cfg(test)]
mod long;
#[cfg(test)]
mod outside;
#[cfg(test)]
mod played;
#[cfg(test)]
mod scripted;
#[cfg(test)]
mod served;
#[cfg(test)]
mod streams;
