//! The plain law of a pool.
ghost use Rattle.std.specs.Prelude.{⊤, false, []};
ghost use Rattle.packet_pool.specs.Plain.{PlainHolds, plain_allows, may_split, first_notes, blank_notes, plain_both, plain_with_taken, plain_with_posted, plain_with_claimed, every_packet, always_loose};
ghost use Rattle.packet_pool.specs.PlainSteps.{plain_opens, plain_looks, plain_counts, plain_begins, plain_parts, plain_merges, plain_ends, plain_bounds};
ghost use Rattle.packet_pool.specs.PlainExchanges.{plain_exchanges};
ghost use Rattle.packet_pool.specs.PlainPool.{plain_notes, plain_seats, plain_takes, plain_gives, plain_posts, plain_claims, plain_cells, plain_fresh};

use crate::item::Item;
use crate::law::PoolLaw;
use packet_board::BoardLaw;
use std::collections::LinkedList;

/// What a seat knows under `PlainLaw`. No value of it is ever made.
pub struct PlainNotes {
    /// Whether the seat may post, split, and take others in.
    pub right: bool,
    /// The numbers of the small buffers that it took from free cells, the last one first.
    pub taken: LinkedList<u16>,
    /// What it posted and claimed, the last item first.
    pub posted: LinkedList<Item>,
    pub claimed: LinkedList<Item>,
}

/// The law of a pool and nothing else. The seat that `Pool::make` gave has the right to post, with which it may also
/// split and take others in. Every packet may be posted; what was posted stands in a ready cell or was claimed.
pub struct PlainLaw;

impl BoardLaw for PlainLaw {
    type Notes = PlainNotes;

    ghost fits = { λ k. ⊤ };

    ghost first = { λ k. first_notes };

    ghost blank = { blank_notes };

    ghost both = { plain_both };

    ghost holds = { PlainHolds };

    ghost allows = { plain_allows };

    ghost splits = { may_split };

    ghost opens = { plain_opens };

    ghost looks = { plain_looks };

    ghost exchanges = { plain_exchanges };

    ghost counts = { plain_counts };

    ghost begins = { plain_begins };

    ghost parts = { plain_parts };

    ghost merges = { plain_merges };

    ghost ends = { plain_ends };

    ghost bounds = { plain_bounds };
}

impl PoolLaw for PlainLaw {
    ghost right = { λ n. n.right };

    ghost taken = { λ n. n.taken };

    ghost posted = { λ n. n.posted };

    ghost claimed = { λ n. n.claimed };

    ghost with_taken = { plain_with_taken };

    ghost with_posted = { plain_with_posted };

    ghost with_claimed = { plain_with_claimed };

    ghost may_post = { every_packet };

    ghost is_loose = { always_loose };

    ghost notes = { plain_notes };

    ghost seats = { plain_seats };

    ghost takes = { plain_takes };

    ghost gives = { plain_gives };

    ghost posts = { plain_posts };

    ghost claims = { plain_claims };

    ghost cells = { plain_cells };

    ghost fresh = { plain_fresh };
}
