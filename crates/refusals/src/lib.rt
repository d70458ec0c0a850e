// refusals: the numbered table of what is refused, and verdicts: what a check finds. For every crate that judges something.
// What the words mean stands in specs/; each public function answers every input, and its contract is an equation with a definition there.
#![tactic(auto)]

ghost use Rattle.std.specs.Prelude.{◌≡◌};
ghost use Rattle.refusals.specs.Refusals.{number_of, own_number_of, is_refusal, accepted, checked, refuse_if, refuse_at};

// The kinds of document 01's refusal table and of the requests after it, in the order of their numbers.
#[derive(Clone, Copy, PartialEq, Eq)]
pub enum Refusal {
    Accepted = 0,
    FileRows = 1,
    BadFile = 2,
    WantRows = 3,
    BadWant = 4,
    TooManyReads = 5,
    TurnPrice = 6,
    HeadPlace = 7,
    ShortRow = 8,
    ShortRoom = 9,
    BadEntry = 10,
    BadLine = 11,
    LongSheet = 12,
    BadName = 13,
    BadRule = 14,
    BadTicket = 15,
    OfficeFull = 16,
    NotWaiting = 17,
    NumbersSpent = 18,
    RetiredRule = 19,
    BadText = 20,
    ManyExtents = 21,
    Overlap = 22,
    FarFile = 23,
    OverEightWants = 24,
    BadSheetCount = 25,
    BadRecord = 26,
}

// The kinds of our own part of the table, which begins at 41: they occur in our own commands and calls alone. Kept apart, so that nothing that 01 or a request
// orders can answer by one of them.
#[derive(Clone, Copy, PartialEq, Eq)]
pub enum OwnRefusal {
    UnknownPath = 41,
    NoBytes = 42,
    OtherWindow = 43,
    OtherVolume = 44,
}

// What a check finds: a kind, and the file, want, entry or line it speaks of, counted from 1 (0: none).
// Stays: place 0 and no Option, since the refusal table counts so, in `refuse_at` and in what C programs are told.
#[derive(Clone, Copy)]
pub struct Verdict {
    pub refusal: Refusal,
    pub place: u64,
}

// The number that the paper gives a kind of refusal; 0 for none.
// Stays: a function and no From, since AUDIT names it, edits stand on it, and C programs are told the number by it.
pub fn number(kind: Refusal) -> u64
    ensures { result ≡ number_of kind }
{
    kind as u64
}

// The number of a kind of our own part.
// Stays: as number.
pub fn own_number(own: OwnRefusal) -> u64
    ensures { result ≡ own_number_of own }
{
    own as u64
}

impl Verdict {
    // A kind at a place.
    fn of(refusal: Refusal, place: u64) -> Verdict
        ensures { result ≡ record { refusal = refusal; place = place } }
    {
        Verdict { refusal, place }
    }

    // What a check finds that finds nothing.
    pub fn accepted() -> Verdict
        ensures { result ≡ accepted }
    {
        Verdict::of(Refusal::Accepted, 0)
    }

    // Nothing where the verdict accepts, and the verdict itself where it refuses, for `?` to hand on.
    pub fn told(self) -> Result<(), Verdict>
        ensures { result ≡ checked self }
    {
        if self.refusal == Refusal::Accepted {
            return Ok(());
        }
        Err(self)
    }
}

impl Refusal {
    // Refuses where something is bad. Such a refusal has no place of its own.
    pub fn when(self, bad: bool) -> Result<(), Verdict>
        ensures { result ≡ checked (refuse_if bad self) }
    {
        if bad {
            return Verdict::of(self, 0).told();
        }
        Ok(())
    }

    // Refuses at the first bad file, want, entry or line; place 0 where there is none.
    // Stays: 0 and no Option, as in `refuse_at`.
    pub fn at(self, place: u64) -> Result<(), Verdict>
        ensures { result ≡ checked (refuse_at place self) }
    {
        if place == 0 {
            return Ok(());
        }
        Verdict::of(self, place).told()
    }
}

// Whether a verdict refuses.
pub fn refused(v: Verdict) -> bool
    ensures { result ≡ is_refusal (v.refusal) }
{
    v.refusal != Refusal::Accepted
}

// A check whose refusal has no place of its own.
pub fn refuse_if(bad: bool, kind: Refusal) -> Verdict
    ensures { result ≡ refuse_if bad kind }
{
    match bad {
        true => Verdict::of(kind, 0),
        false => Verdict::accepted(),
    }
}

// A check that names the first bad file, want, entry or line; place 0 where there is none.
// Stays: 0 and no Option, since `refuse_at` of the refusal table counts so.
pub fn refuse_at(place: u64, kind: Refusal) -> Verdict
    ensures { result ≡ refuse_at place kind }
{
    match place {
        0 => Verdict::accepted(),
        _ => Verdict::of(kind, place),
    }
}
