//! What a pool asks of a board's law.
ghost use Rattle.std.specs.Prelude.{ℕ, Bool, List};
ghost use Rattle.packet_board.specs.declared.buffer.Buffer.{Buffer};
ghost use Rattle.packet_pool.specs.declared.item.Item.{Item};
ghost use Rattle.packet_pool.specs.Laws.{Notes, Seats, Takes, Gives, Posts, Claims, Cells, Fresh};

use packet_board::BoardLaw;

/// A law of a board that allows what a pool does: free cells lose and get their buffers, ready cells get and lose
/// packets. Its notes tell what a seat took, posted and claimed, and whether it has the right to post.
pub trait PoolLaw: BoardLaw {
    /// Whether the seat has the right to post.
    ghost right: { Self.Notes → Bool };

    /// The numbers of the small buffers that the seat took from free cells, the last one first.
    ghost taken: { Self.Notes → List ℕ };

    /// What the seat posted and claimed, the last item first.
    ghost posted: { Self.Notes → List Item };

    ghost claimed: { Self.Notes → List Item };

    /// The notes after a small buffer was taken, and after an item was posted or claimed.
    ghost with_taken: { ℕ → Self.Notes → Self.Notes };

    ghost with_posted: { Item → Self.Notes → Self.Notes };

    ghost with_claimed: { Item → Self.Notes → Self.Notes };

    /// Which packets may be posted.
    ghost may_post: { Buffer → Type 0 };

    /// Whether the seat may give the buffer of that number away: the law has nothing else to become of it.
    ghost is_loose: { Self.Notes → ℕ → Type 0 };

    ghost notes: { Notes right taken posted claimed with_taken with_posted with_claimed };

    ghost seats: { Seats right taken posted claimed Self.first Self.blank Self.both };

    ghost takes: { Takes Self.allows with_taken };

    ghost gives: { Gives Self.allows is_loose };

    ghost posts: { Posts Self.allows right posted with_posted may_post is_loose };

    ghost claims: { Claims Self.allows with_claimed };

    ghost cells: { Cells Self.holds may_post };

    ghost fresh: { Fresh Self.holds };
}
