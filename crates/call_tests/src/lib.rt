//! Tests of public calls that the program doesn't make, or that no text of it reaches: ciphers, MACs, messages, RADIUS packets, lists
//! and streams; captures and values; worlds stepped by hand. What is a text in and a text out is in cases/.
#![tactic(auto)]

#[cfg(test)]
mod captures;
#[cfg(test)]
mod ciphers;
#[cfg(test)]
mod macs;
#[cfg(test)]
mod messages;
#[cfg(test)]
mod objects;
#[cfg(test)]
mod radius;
#[cfg(test)]
mod reflections;
#[cfg(test)]
mod row;
#[cfg(test)]
mod settings;
#[cfg(test)]
mod streams;
#[cfg(test)]
mod values;
#[cfg(test)]
mod worlds;
