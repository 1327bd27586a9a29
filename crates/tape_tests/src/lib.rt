// Tapes and lines, byte for byte: what the bench prints of good and damaged tapes, and what the line calls leave in their buffers.
#![tactic(auto)]

#[cfg(test)]
mod line_buffers;
#[cfg(test)]
mod printout;
#[cfg(test)]
mod records;
#[cfg(test)]
mod tapes;
#[cfg(test)]
mod wires;
