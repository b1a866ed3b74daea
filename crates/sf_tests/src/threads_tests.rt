//! Tests of rounds by threads.

#[cfg(test)]
mod gates;
#[cfg(test)]
mod ranks;
#[cfg(test)]
mod rounds;
