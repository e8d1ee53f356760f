//! The counter by which workers claim numbers, and their seats.
ghost use Rattle.std.specs.Prelude.{◌≡◌, ◌+◌, ◌-◌, ◌^◌, ◌<◌, ◌≤◌, [], ◌∷◌, ◌++◌, length, All, IfOk};
ghost use Rattle.yew_ranked.specs.ClaimSeats.{AreBelow};

use crate::claim_steps::{CountsClaims, OneOff, Takes, Together};
use crate::claim_view::ClaimView;
use atomic_table::{Seat, Table};
use std::alloc::Global;
use std::marker::Model;
use yew_laws::Memory;

// The counter stands in the middle of 32 words, of which the others are never written. So what other objects write lies
// at least 120 bytes away, and costs no worker its copy of the counter.
const WORDS: usize = 32;

const PLACE: usize = 16;

/// A counter by which each number from 0 on is claimed once. Threads share it by reference. Contracts see which counter it
/// is, and the number of seats that it was made for.
#[derive(Drop)]
pub struct Claims {
    table: Table<(), ClaimView, u32, CountsClaims, Global>,
}

impl Model for Claims {
    ghost use Rattle.std.specs.Prelude.{◌≡◌};
    ghost use Rattle.yew_ranked.specs.ClaimSeats.{ClaimsId, claims_id_coded};

    ghost Value = { ClaimsId };

    ghost coded = { claims_id_coded };

    ghost view = { λ c. record { table = c.table.shared.table_id; seats = c.table.shared.key } };

    ghost invariant = { λ c. (c.table.shared.table_id.words ≡ 32) × (c.table.shared.table_id.slots ≡ 0) };
}

/// A worker's place at the counter, which takes no bytes. Contracts see the counter that it is of, its share, which is at
/// least 1, and the numbers that it has claimed, the oldest first.
#[derive(Drop)]
pub struct ClaimSeat {
    seat: Seat<(), ClaimView>,
}

impl Model for ClaimSeat {
    ghost use Rattle.std.specs.Prelude.{◌≡◌, ◌<◌, []};
    ghost use Rattle.yew_ranked.specs.ClaimSeats.{ClaimSeatView, claim_seat_coded, claim_seat};

    ghost Value = { ClaimSeatView };

    ghost coded = { claim_seat_coded };

    ghost view = { λ s. claim_seat s.seat.table_id s.seat.me.0 };

    ghost invariant = { λ s. (0 < s.seat.me.0.share) × (s.seat.me.1 ≡ []) };
}

impl Claims {
    /// Makes a counter that is 0 and its first seat, which has the whole share, `seats`, from 1 to 64.
    ///
    /// # Errors
    ///
    /// `Memory` comes only where memory ran out.
    pub fn new(alloc: Global, seats: u32) -> Result<(Claims, ClaimSeat), Memory>
        requires some { 0 < seats }
        requires few { seats ≤ 64 }
        ensures claims { IfOk result (λ r. r.0.seats ≡ seats) }
        ensures seat { IfOk result (λ r. r.1 ≡ record { claims = r.0; share = seats; claimed = [] }) }
    {
        let (table, seat) = Table::of_words(alloc, &[0; WORDS], &seats)?;
        Ok((Claims { table }, ClaimSeat { seat }))
    }

    /// Claims the next number, by one addition. It is above each number that the seat has claimed before.
    #[inline]
    pub fn claim(&self, seat: &mut ClaimSeat) -> u64
        requires claims { seat.old.claims ≡ self.now }
        requires one { seat.old.share ≡ 1 }
        requires few { length seat.old.claimed < 2 ^ 57 }
        ensures claimed { seat.new ≡ record seat.old { claimed = seat.old.claimed ++ result ∷ [] } }
        ensures above { All (λ x. x < result) seat.old.claimed }

        // With the whole share, nobody else has claimed anything.
        ensures whole { self.now.seats ≡ 1 → result ≡ length seat.old.claimed }
    {
        let shared = &self.table.shared;
        shared.fetch_add::<Takes>(&mut seat.seat, PLACE, 1)
    }

    /// Splits a seat off, with a share of 1 of the seat's. Both have claimed nothing.
    pub fn split(&self, seat: &mut ClaimSeat) -> ClaimSeat
        requires claims { seat.old.claims ≡ self.now }
        requires share { 1 < seat.old.share }
        requires none { seat.old.claimed ≡ [] }
        ensures seat { seat.new ≡ record seat.old { share = seat.old.share - 1 } }
        ensures new { result ≡ record seat.old { share = 1 } }
    {
        let shared = &self.table.shared;
        let other = shared.split_seat::<OneOff>(&mut seat.seat);
        ClaimSeat { seat: other }
    }

    /// Takes another seat of the same counter into this one: the lists are joined and the shares are added.
    pub fn join(&self, seat: &mut ClaimSeat, other: ClaimSeat)
        requires claims { seat.old.claims ≡ self.now }
        requires other { other.claims ≡ self.now }
        ensures { seat.new ≡ record seat.old { share = seat.old.share + other.share; claimed = seat.old.claimed ++ other.claimed } }
    {
        let ClaimSeat { seat: other } = other;
        let shared = &self.table.shared;
        shared.join_seat::<Together>(&mut seat.seat, other);
    }

    /// Ends the counter with the seat that has the whole share, and so every number that was claimed. Answers how many
    /// they are: they are the numbers below, each once.
    pub fn close(self, seat: ClaimSeat) -> u64
        requires claims { seat.claims ≡ self }
        requires whole { seat.share ≡ self.seats }
        ensures { AreBelow result seat.claimed }
    {
        let Claims { table } = self;
        let ClaimSeat { seat } = seat;
        let closed = table.close_with(seat);
        let counter = closed.word(PLACE);
        closed.free();
        counter
    }
}
