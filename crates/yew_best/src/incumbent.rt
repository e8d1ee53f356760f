//! The shared word and its seats.
ghost use Rattle.std.specs.Prelude.{◌≡◌, ◌-◌, ◌<◌, ◌≤◌, ◌⊎◌, [], ◌∷◌, ◌++◌, All, Contains, IfOk};
ghost use Rattle.yew_best.specs.Seats.{has_read, joined_seat};

use crate::steps::{Compares, Key, OneOff, Raises, Reads, Rises, Together};
use crate::view::View;
use atomic_table::{Seat, Table};
use std::alloc::Global;
use std::marker::{Brand, Model};
use yew_laws::Memory;

// The word stands in the middle of 32, of which the others are never written. So what other objects write lies at
// least 120 bytes away, and costs no worker its copy of the word.
const WORDS: usize = 32;

const PLACE: usize = 16;

/// The incumbent word: the greatest value that was offered to it, or 0. It only rises, and threads share it by
/// reference. Contracts see which word it is, and the number of seats that it was made for.
#[derive(Drop)]
pub struct Best {
    table: Table<(), View, u32, Rises, Global>,
}

impl Model for Best {
    ghost use Rattle.std.specs.Prelude.{◌≡◌};
    ghost use Rattle.yew_best.specs.Seats.{BestId, best_id_coded};

    ghost Value = { BestId };

    ghost coded = { best_id_coded };

    ghost view = { λ b. record { table = b.table.shared.table_id; seats = b.table.shared.key } };

    ghost invariant = { λ b. (b.table.shared.table_id.words ≡ 32) × (b.table.shared.table_id.slots ≡ 0) };
}

/// A worker's place at the word, which takes no bytes. Contracts see the word that it is of, its share, which is at
/// least 1, and the values that it has read, offered and heard, the oldest first. It has heard those values that it
/// read without having offered them before.
#[derive(Drop)]
pub struct BestSeat {
    seat: Seat<(), View>,
}

impl Model for BestSeat {
    ghost use Rattle.std.specs.Prelude.{◌≡◌, ◌<◌, []};
    ghost use Rattle.yew_best.specs.Seats.{SeatView, seat_view_coded, seat_view};

    ghost Value = { SeatView };

    ghost coded = { seat_view_coded };

    ghost view = { λ s. seat_view s.seat.table_id s.seat.me.0 };

    ghost invariant = { λ s. (0 < s.seat.me.0.share) × (s.seat.me.1 ≡ []) };
}

impl Best {
    /// Makes a word that is 0 and its first seat, which has the whole share, `seats`.
    ///
    /// # Errors
    ///
    /// `Memory` where memory ran out.
    pub fn new(alloc: Global, seats: u32) -> Result<(Best, BestSeat), Memory>
        requires { 0 < seats }
        ensures best { IfOk result (λ r. r.0.seats ≡ seats) }
        ensures seat { IfOk result (λ r. r.1 ≡ record { best = r.0; share = seats; read = []; offered = []; heard = [] }) }
    {
        let (table, seat) = Table::of_words(alloc, &[0; WORDS], &seats)?;
        Ok((Best { table }, BestSeat { seat }))
    }

    /// Loads the word, which is at least all that the seat has read and offered. Where the seat had not offered it, the
    /// seat has heard it: it is 0, or another seat has offered it before.
    #[inline]
    pub fn read(&self, seat: &mut BestSeat) -> u64
        requires { seat.old.best ≡ self.now }
        ensures read { seat.new ≡ has_read seat.old result }
        ensures at_least_read { All (λ x. x ≤ result) seat.old.read }
        ensures at_least_offered { All (λ x. x ≤ result) seat.old.offered }

        // With the whole share, nobody else has offered anything.
        ensures whole { seat.old.share ≡ self.now.seats → (result ≡ 0) ⊎ Contains seat.old.offered result }
    {
        self.table.shared.load::<Reads>(&mut seat.seat, PLACE)
    }

    /// Offers a key: leaves the word at least the key, and answers the word before. A word that is at least the key
    /// is not written, and so stays in the other workers' caches. The offer is then its one load, and otherwise the
    /// greatest-value exchange that follows the load.
    #[inline]
    pub fn raise(&self, seat: &mut BestSeat, key: u64) -> u64
        requires { seat.old.best ≡ self.now }
        ensures offered { seat.new ≡ record seat.old { offered = seat.old.offered ++ key ∷ [] } }
        ensures at_least_read { All (λ x. x ≤ result) seat.old.read }
        ensures at_least_offered { All (λ x. x ≤ result) seat.old.offered }
        ensures whole { seat.old.share ≡ self.now.seats → (result ≡ 0) ⊎ Contains seat.old.offered result }
    {
        let word = self.offer_by_load::<Brand>(seat, key);
        if key <= word {
            return word;
        }
        self.offer_by_exchange(seat, key)
    }

    // Offers the key where the word is at least the key already, and else changes nothing. Answers the word.
    #[inline]
    fn offer_by_load<K: Key>(&self, seat: &mut BestSeat, key: u64) -> u64
        requires best { seat.old.best ≡ self.now }
        requires key { K.key ≡ key }
        ensures offered { key ≤ result → seat.new ≡ record seat.old { offered = seat.old.offered ++ key ∷ [] } }
        ensures below { result < key → seat.new ≡ seat.old }
        ensures at_least_read { All (λ x. x ≤ result) seat.old.read }
        ensures at_least_offered { All (λ x. x ≤ result) seat.old.offered }
        ensures whole { seat.old.share ≡ self.now.seats → (result ≡ 0) ⊎ Contains seat.old.offered result }
    {
        self.table.shared.load::<Compares<K>>(&mut seat.seat, PLACE)
    }

    // Makes the word the greater of itself and the key, and answers the word before.
    #[inline]
    fn offer_by_exchange(&self, seat: &mut BestSeat, key: u64) -> u64
        requires { seat.old.best ≡ self.now }
        ensures offered { seat.new ≡ record seat.old { offered = seat.old.offered ++ key ∷ [] } }
        ensures at_least_read { All (λ x. x ≤ result) seat.old.read }
        ensures at_least_offered { All (λ x. x ≤ result) seat.old.offered }
        ensures whole { seat.old.share ≡ self.now.seats → (result ≡ 0) ⊎ Contains seat.old.offered result }
    {
        self.table
            .shared
            .fetch_max::<Raises>(&mut seat.seat, PLACE, key)
    }

    /// Splits a seat off, with a share of 1 of the seat's. It has read what the seat has read, and has offered and heard
    /// nothing.
    pub fn split(&self, seat: &mut BestSeat) -> BestSeat
        requires best { seat.old.best ≡ self.now }
        requires share { 1 < seat.old.share }
        ensures seat { seat.new ≡ record seat.old { share = seat.old.share - 1 } }
        ensures new { result ≡ record seat.old { share = 1; offered = []; heard = [] } }
    {
        let shared = &self.table.shared;
        let other = shared.split_seat::<OneOff>(&mut seat.seat);
        BestSeat { seat: other }
    }

    /// Takes another seat of the same word into this one: the lists are joined and the shares are added. Of what each
    /// had heard, that stays which the other had not offered.
    pub fn join(&self, seat: &mut BestSeat, other: BestSeat)
        requires best { seat.old.best ≡ self.now }
        requires other { other.best ≡ self.now }
        ensures { seat.new ≡ joined_seat seat.old other }
    {
        let BestSeat { seat: other } = other;
        let shared = &self.table.shared;
        shared.join_seat::<Together>(&mut seat.seat, other);
    }

    /// Ends the word with the seat that has the whole share, and so every value that was read or offered, and has heard
    /// nothing but 0. Answers the word, the greatest value offered, or 0.
    pub fn close(self, seat: BestSeat) -> u64
        requires best { seat.best ≡ self }
        requires whole { seat.share ≡ self.seats }
        ensures at_least_read { All (λ x. x ≤ result) seat.read }
        ensures at_least_offered { All (λ x. x ≤ result) seat.offered }
        ensures offered { (result ≡ 0) ⊎ Contains seat.offered result }
        ensures reads_offered { All (λ x. (x ≡ 0) ⊎ Contains seat.offered x) seat.read }
        ensures heard { All (λ x. x ≡ 0) seat.heard }
    {
        let Best { table } = self;
        let BestSeat { seat } = seat;
        let closed = table.close_with(seat);
        let word = closed.word(PLACE);
        closed.free();
        word
    }
}
