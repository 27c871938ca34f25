//! The examples: headers of packets and of TCP segments, parameters of H.264 streams, pages and keys,
//! codes, cells, and recipes of the README and the guide.
#![tactic(auto)]

#[cfg(test)]
mod bloom;
#[cfg(test)]
mod huffman;
#[cfg(test)]
mod huffman_text;
#[cfg(test)]
mod life;
#[cfg(test)]
mod numbers;
#[cfg(test)]
mod packet;
#[cfg(test)]
mod pages;
#[cfg(test)]
mod seats;
#[cfg(test)]
mod sps;
#[cfg(test)]
mod sps_x264;
#[cfg(test)]
mod tcp;
#[cfg(test)]
mod two_spans;
