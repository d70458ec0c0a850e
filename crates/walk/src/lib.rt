// walk: the head and its walk, the legs of detour lists and their price.
// For the planner, the writers and the C boundary, which see only these contracts. What the words mean stands in specs/;
// each public function answers every input, and its contract is an equation with a definition there.
#![tactic(auto)]

ghost use Rattle.std.specs.Prelude.{◌≡◌, ◌+◌, ◌≤◌, ◌<◌, ◌^◌};
ghost use Rattle.walk.specs.Walk.{head_at, run_left, run_right, turned, ready, set_off};

mod any_head;
mod pricing;

pub use any_head::price_any;
pub use pricing::{price, refuse, short_rows};

// The one answer record: on a refusal every number but the place is 0.
// Stays: the scope asks for one answer record, with the kind of refusal beside place, sum, finish and end, so that the answer is no Result.
#[derive(Clone, Copy)]
pub struct Answer {
    pub refusal: refusals::Refusal,
    pub place: u64,
    pub sum: u64,
    pub finish: u64,
    pub end: u64,
    pub detours: u64,
}

// Stays: the way is a part of the head's state, which each step takes and hands back, as the scope asks; a closure for a way would not be told.
#[derive(Clone, Copy)]
pub enum Way {
    Leftward,
    Rightward,
}

// The head: each step consumes the state and returns the next one.
#[derive(Clone, Copy)]
pub struct Head {
    pub place: u64,
    pub clock: u64,
    pub way: Way,
}

// Left to a position, a turn, right to a position.
#[derive(Clone, Copy)]
pub struct Leg {
    pub left: u64,
    pub right: u64,
}

// When a file is read, and which leg reads it, counted from 1.
#[derive(Clone, Copy)]
pub struct Read {
    pub time: u64,
    pub leg: u64,
}

impl Head {
    fn at(place: u64) -> Head
        ensures { result ≡ head_at place }
    {
        Head {
            place,
            clock: 0,
            way: Way::Leftward,
        }
    }

    fn run_left(self, to: u64) -> Head
        requires to_le_place { to ≤ self.place }
        requires place_bound { self.clock + self.place < 2 ^ 64 }
        ensures { result ≡ run_left self to }
    {
        let way = self.way;
        let clock = self.clock + (self.place - to);
        Head {
            place: to,
            clock,
            way,
        }
    }

    fn run_right(self, to: u64) -> Head
        requires place_le_to { self.place ≤ to }
        requires to_bound { self.clock + to < 2 ^ 64 }
        ensures { result ≡ run_right self to }
    {
        let way = self.way;
        let clock = self.clock + (to - self.place);
        Head {
            place: to,
            clock,
            way,
        }
    }

    fn turn(self, price: u64) -> Head
        requires { self.clock + price < 2 ^ 64 }
        ensures { result ≡ turned self price }
    {
        let way = self.way;
        let place = self.place;
        let clock = self.clock + price;
        match way {
            Way::Leftward => Head {
                place,
                clock,
                way: Way::Rightward,
            },
            Way::Rightward => Head {
                place,
                clock,
                way: Way::Leftward,
            },
        }
    }

    // Set to move left: before each later leg the head turns again.
    fn ready(self, price: u64) -> Head
        requires { self.clock + price < 2 ^ 64 }
        ensures { result ≡ ready self price }
    {
        let way = self.way;
        match way {
            Way::Leftward => self,
            Way::Rightward => self.turn(price),
        }
    }

    // Left to the leg's turn and turned there, about to run right.
    fn set_off(self, price: u64, leg: Leg) -> Head
        requires left_le_place { leg.left ≤ self.place }
        requires price_bound { self.clock + price + self.place + price < 2 ^ 64 }
        ensures { result ≡ set_off price self leg }
    {
        let left = leg.left;
        self.ready(price).run_left(left).turn(price)
    }
}
