//! How seats are split off and joined, and how many are out.
ghost use Rattle.std.specs.Prelude.{◌≡◌, ◌≢◌, ◌+◌, ◌<◌, ◌^◌, MatchResult};
ghost use mathlib.Core.Option.{none};
ghost use Rattle.packet_board.specs.Hands.{HoldsNothing};
ghost use Rattle.packet_board.specs.Views.{begun, settled, newcomer, joined, landed, told_out};
ghost use Rattle.packet_board.specs.Laws.{WasOut};
ghost use Rattle.packet_board.specs.Seats.{view, held, IsSeatOf, IsSameSeat};

use crate::board::Board;
use crate::law::BoardLaw;
use crate::plays::{Begin, Count, End, Merge, Part};
use crate::seat::Seat;

impl<L: BoardLaw> Board<L> {
    /// A new seat with nothing in its hands.
    pub fn split(&self, seat: &mut Seat<L>) -> Seat<L>
        requires seat { IsSeatOf self.now seat.old }
        requires law { L.splits (view seat.old) }
        requires balance { (view seat.old).begun < (view seat.old).ended + 2 ^ 62 }
        ensures seat { IsSameSeat seat.old seat.new }
        ensures view { view seat.new ≡ settled (begun (view seat.old)) }
        ensures held { held seat.new ≡ held seat.old }
        ensures made { IsSeatOf self.now result × (view result ≡ newcomer L.blank (view seat.old)) × HoldsNothing (held result) }
    {
        self.table.shared.fetch_add::<Begin>(&mut seat.token, 0, 1);
        let token = self.table.shared.split_seat::<Part<L>>(&mut seat.token);
        Seat { token }
    }

    /// Takes in another seat, which has nothing in its hands.
    pub fn join(&self, seat: &mut Seat<L>, other: Seat<L>)
        requires seat { IsSeatOf self.now seat.old }
        requires other { IsSeatOf self.now other }
        requires empty { HoldsNothing (held other) }
        requires law { L.splits (view seat.old) }
        ensures seat { IsSameSeat seat.old seat.new }
        ensures view { view seat.new ≡ landed (joined L.both (view seat.old) (view other)) }
        ensures held { held seat.new ≡ held seat.old }
    {
        let Seat { token } = other;
        self.table
            .shared
            .join_seat::<Merge<L>>(&mut seat.token, token);
        self.table.shared.fetch_sub::<End>(&mut seat.token, 0, 1);
    }

    /// Whether no other seat is out; or else the number of those that were split off and not joined.
    pub fn alone(&self, seat: &mut Seat<L>) -> Result<(), u64>
        requires seat { IsSeatOf self.now seat.old }
        ensures seat { IsSameSeat seat.old seat.new }
        ensures out { MatchResult result (λ _. WasOut L.holds 0 (view seat.old)) (λ out. (out ≢ 0) × WasOut L.holds out (view seat.old)) }
        ensures view { MatchResult result (λ _. view seat.new ≡ told_out 0 (view seat.old)) (λ out. view seat.new ≡ told_out out (view seat.old)) }
        ensures held { held seat.new ≡ held seat.old }
    {
        let out = self.table.shared.load::<Count<L>>(&mut seat.token, 0);
        if out == 0 { Ok(()) } else { Err(out) }
    }
}
