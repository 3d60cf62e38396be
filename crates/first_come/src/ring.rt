// Session numbers in order of arrival, in a ring of 256 places.
ghost use Rattle.std.specs.Prelude.{◌≡◌, ◌<◌, length};

use waiting::table::PLACES;

// The first entry stands at `head`, the others behind it. How many there are is known elsewhere.
#[derive(Drop)]
pub(crate) struct Ring {
    pub(crate) numbers: [u32; PLACES as usize],
    pub(crate) head: u32,
    ghost places: { length numbers ≡ 256 },
    ghost front: { head < 256 },
}

impl Ring {
    ghost use Rattle.std.specs.Prelude.{◌≤◌, slice_index};
    ghost use Rattle.first_come.specs.Rings.{Fresh, advanced, appended};

    pub(crate) fn new() -> Ring
        ensures { Fresh result }
    {
        Ring {
            numbers: [0; PLACES as usize],
            head: 0,
        }
    }

    // The first entry.
    pub(crate) fn first(&self) -> u32
        ensures { result ≡ slice_index self.now.numbers self.now.head }
    {
        self.numbers[self.head as usize]
    }

    // Leaves the first entry behind.
    pub(crate) fn advance(&mut self)
        ensures { self.new ≡ advanced self.old }
    {
        self.head = (self.head + 1) % PLACES;
    }

    // Writes the session behind the last of `count` entries.
    pub(crate) fn append(&mut self, count: u32, session: u32)
        requires { count ≤ 256 }
        ensures { self.new ≡ appended self.old count session }
    {
        let place = (self.head + count) % PLACES;
        self.numbers[place as usize] = session;
    }
}
