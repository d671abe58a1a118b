// Locations: bytes counted with a page's offset.
ghost use Rattle.std.specs.Prelude.{◌≡◌};
ghost use Rattle.token.specs.Places.{number_of_location, place_at};

use crate::place::Place;

// Counts with the page's offset. No call takes a place for it: a type of its own, as alike as it is to `Place`.
#[derive(Clone, Copy, Debug, PartialEq, Eq)]
pub struct Location(u32);

impl Location {
    // The location with that number.
    pub fn new(count: u32) -> Location
        ensures { number_of_location result ≡ count }
    {
        Location(count)
    }

    pub fn count(self) -> u32
        ensures { result ≡ number_of_location self }
    {
        self.0
    }

    // The place at it, on a page with this offset; none below the offset.
    pub fn place(self, offset: u32) -> Option<Place>
        ensures { result ≡ place_at self offset }
    {
        self.count().checked_sub(offset).map(Place::new)
    }
}
