// Places: bytes counted from a page's first one.
ghost use Rattle.std.specs.Prelude.{◌≡◌};
ghost use Rattle.token.specs.Places.{number_of_place, location_at};

use crate::location::Location;

// Counts from the page's first byte. No call takes a location for it: so the two are types of their own, alike as they are, and neither
// is made of a number by `into`.
#[derive(Clone, Copy, Debug, PartialEq, Eq)]
pub struct Place(u32);

impl Place {
    // The place with so many bytes of the page before it.
    pub fn new(count: u32) -> Place
        ensures { number_of_place result ≡ count }
    {
        Place(count)
    }

    // How many bytes of the page stand before it.
    pub fn count(self) -> u32
        ensures { result ≡ number_of_place self }
    {
        self.0
    }

    // Its location, on a page with this offset; none where that needs more than 32 bits.
    pub fn location(self, offset: u32) -> Option<Location>
        ensures { result ≡ location_at self offset }
    {
        self.count().checked_add(offset).map(Location::new)
    }
}
