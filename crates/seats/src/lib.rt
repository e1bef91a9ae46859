// The list of seats of a sitting (document 02, §4), as it is lent: a record is found in it and put back, and its first records are emptied.
#![tactic(auto)]

ghost use Rattle.std.specs.Prelude.{◌≡◌};
ghost use Rattle.seats.specs.Found.{found, put_back, emptied};

use model::Seat;

// How many records are seats: those after this many are none.
const SEAT_LIMIT: usize = 32;

// An empty record.
pub const EMPTY_SEAT: Seat = Seat {
    lowest: 0,
    candidate: 0,
    marked: 0,
    reserved: 0,
};

// A record of the list, and its place.
#[derive(Clone, Copy)]
pub struct Found {
    pub at: usize,
    pub seat: Seat,
}

// The first seat of a candidate. The first empty record is that of candidate 0.
#[tactic(auto, using(crate::proofs::Finds::finds))]
pub fn find(seats: &[Seat], candidate: u16) -> Option<Found>
    ensures { result ≡ found candidate seats.now }
{
    let limit = SEAT_LIMIT.min(seats.len());
    for (at, &seat) in seats[..limit].iter().enumerate() {
        if seat.candidate == candidate {
            return Some(Found { at, seat });
        }
    }
    None
}

// Puts a changed record back at its place, where one is changed: beyond the list nothing is.
#[tactic(auto, unfolding(crate::specs::Found::put_back))]
pub fn put(seats: &mut [Seat], change: Option<Found>)
    ensures { seats.new ≡ put_back change seats.old }
{
    if let Some(Found { at, seat }) = change {
        if at < seats.len() {
            seats[at] = seat;
        }
    }
}

// Empties the records before a place, or all where there are fewer.
pub fn empty_first(seats: &mut [Seat], count: usize)
    ensures { seats.new ≡ emptied count seats.old }
{
    let limit = count.min(seats.len());
    seats[..limit].fill(EMPTY_SEAT);
}
