// The reasons to refuse. Definitions and laws that the contracts and proofs of several crates share are in specs/.

#![tactic(auto)]

ghost use Rattle.std.specs.Prelude.{◌≡◌};
ghost use Rattle.common.specs.Number.{number_of};

// Each reason to refuse, in the order of the numbers that other languages are told (`u8::from`).
#[derive(Clone, Copy, Debug, PartialEq, Eq)]
pub enum Refusal {
    // Start: fewer than 3 views
    TooFewViews = 1,
    // Start: an empty list of tilts
    NoTilts = 2,
    // Start: the bound of the tilts isn't finite or not above 0
    BadBound = 3,
    // Start: rounds are asked for, and their step isn't finite or not above 0
    BadStep = 4,
    // Start: more seeds or rounds than a run can have, or decomposition seeds whose length is no multiple of 6
    TooMany = 5,
    // Start: a decomposition seed with a number that isn't finite, a focal length not above 0, or a tilt beyond the
    // bound
    BadSeed = 6,
    // Start: a typed tilt that isn't finite
    TiltNotFinite = 7,
    // Start: a lent list that is too short for the run's seeds
    ListTooShort = 8,
    // Next: a seed waits for its answer
    SeedWaiting = 9,
    // a call: the lent list is shorter than Start asked for
    ListShortened = 10,
    // Next, Result: the run is over, and no candidate was scored
    NothingScored = 11,
    // Answer: no seed waits
    NoSeedWaiting = 12,
    // Answer: too many rows, not four numbers a flag, or a flag above 1
    BadRows = 13,
    // Result: the run isn't over
    NotOver = 14,
    // a tilt whose determinant is 0
    SingularTilt = 15,
    // six numbers that are no camera's conic
    DegenerateViews = 16,
    // a list of points of odd length, or of more than 400
    BadPoints = 17,
    // a destination that is too short
    DestinationTooShort = 18,
    // no points, or a mean distance of at most 2^-52
    Coincident = 19,
    // design rows: a source that isn't finite
    SourceNotFinite = 20,
    // design rows: a destination that isn't finite
    DestinationNotFinite = 21,
    // design rows: fewer than 4 points
    TooFewPoints = 22,
    // design rows: more points on one side
    CountsDiffer = 23,
    // design rows: source points on a line
    SourceCollinear = 24,
    // design rows: destination points on a line
    DestinationCollinear = 25,
    // a tilt that is NaN or beyond 0.5 in size, or such a bound
    TiltTooLarge = 27,
    // the writer: a short buffer, or a line or total that the journal can't hold
    NotWritable = 28,
    // the reader: bytes that aren't a line
    NotALine = 29,
    // running a journal again: a line that isn't the run's next answer
    NotTheRun = 30,
    // Start about one axis: tilts about y that aren't the single 0
    TiltsOffAxis = 31,
    // Start about one axis: a decomposition seed with a tilt about y
    SeedOffAxis = 32,
    // Start: a share of the rows above 100 per cent
    ShareTooLarge = 33,
    // a camera for which no plate has a known answer
    NoSharedPower = 34,
}

impl From<Refusal> for u8 {
    ghost from_gives = { λ refusal number. number ≡ number_of refusal };

    fn from(refusal: Refusal) -> u8 {
        refusal as u8
    }
}
