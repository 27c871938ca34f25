//! Slices as texts, and by the prelude's names.

mod examples;
mod written;
