//! Tests of whole logins by EAP-PSK and by makers' methods, over the plain calls of machines, worlds and pipes, and over the crates
//! that makers begin with. Logins by EAP-GPSK are in cases/ and in the checks of c/; here is one in which a tag comes back.
#![tactic(auto)]

#[cfg(test)]
mod examples;
#[cfg(test)]
mod makers_keys;
#[cfg(test)]
mod makers_method;
#[cfg(test)]
mod reflected;
#[cfg(test)]
mod sessions;
#[cfg(test)]
mod settings;
#[cfg(test)]
mod ways;
