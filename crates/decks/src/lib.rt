// What a put looks its entries up in: the deck, with the old source, its path, and the cards of its entries' keys.
#![tactic(auto)]

pub mod deck;
