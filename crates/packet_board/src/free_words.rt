//! The law that asks nothing of the words.
ghost use Rattle.std.specs.Prelude.{⊤, true, false};
ghost use Rattle.packet_board.specs.FreeWords.{free_holds, free_allows, may_split, free_opens, free_looks, free_exchanges, free_counts, free_begins, free_parts, free_merges, free_ends, free_bounds};

use crate::law::BoardLaw;

/// Every exchange is allowed that the hands allow, in each cell. The seat that `Board::make` gave alone may split and
/// take others in: its note is true. It is for tests, and the shortest example of a law.
pub struct FreeWords;

impl BoardLaw for FreeWords {
    type Notes = bool;

    ghost fits = { λ k. ⊤ };

    ghost first = { λ k. true };

    ghost blank = { false };

    ghost both = { λ a b. a };

    ghost holds = { free_holds };

    ghost allows = { free_allows };

    ghost splits = { may_split };

    ghost opens = { free_opens };

    ghost looks = { free_looks };

    ghost exchanges = { free_exchanges };

    ghost counts = { free_counts };

    ghost begins = { free_begins };

    ghost parts = { free_parts };

    ghost merges = { free_merges };

    ghost ends = { free_ends };

    ghost bounds = { free_bounds };
}
