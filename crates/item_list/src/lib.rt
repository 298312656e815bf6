//! A list that public fields hold where Rust would write `Vec<T>`: contracts see it as the list of its items.
#![tactic(auto)]

mod items;

pub use items::Items;
