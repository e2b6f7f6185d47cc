// "Controller numbers, counters and point numbers are kept apart": each is a type of its own, here and in every definition.
#![tactic(auto)]

ghost use Rattle.std.specs.Prelude.{◌≡◌};
ghost use Rattle.numbers.specs.Dot.{same_dot, dot_before};
ghost use Rattle.numbers.specs.Key.{same_key, key_before};

// A controller number, 1 to 8.
#[derive(Clone, Copy, PartialEq, Eq, PartialOrd, Ord)]
pub struct Controller(pub u8);

// A counter, 1 to 4,294,967,295; as an entry of a context, 0 for none.
#[derive(Clone, Copy, PartialEq, Eq, PartialOrd, Ord)]
pub struct Counter(pub u32);

// A point number, 1 to 65,535, within a job.
#[derive(Clone, Copy, PartialEq, Eq, PartialOrd, Ord)]
pub struct Point(pub u16);

// "A dot is a controller number and a counter": the name of one write.
#[derive(Clone, Copy, PartialEq, Eq, PartialOrd, Ord)]
pub struct Dot {
    pub who: Controller,
    pub count: Counter,
}

// A point of the crew: its job, 0 to 7, and its number within the job.
#[derive(Clone, Copy, PartialEq, Eq, PartialOrd, Ord)]
pub struct Key {
    pub job: u8,
    pub point: Point,
}

impl Dot {
    pub fn same(self, other: Dot) -> bool
        ensures { result ≡ same_dot self other }
    {
        self == other
    }

    // "ascending by controller and counter". The derived `<` of the whole goes through an `Ordering`, and takes half as much again in a search.
    pub fn before(self, other: Dot) -> bool
        ensures { result ≡ dot_before self other }
    {
        self.who < other.who || self.who == other.who && self.count < other.count
    }
}

impl Key {
    pub fn same(self, other: Key) -> bool
        ensures { result ≡ same_key self other }
    {
        self == other
    }

    // "ascending by job and point"
    pub fn before(self, next: Key) -> bool
        ensures { result ≡ key_before self next }
    {
        self < next
    }
}
