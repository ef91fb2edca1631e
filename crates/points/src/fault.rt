// Why a call was refused, which layer refused it, and where.
ghost use Rattle.std.specs.Prelude.{◌≡◌};
ghost use Rattle.points.specs.Faults.{number_of, raised, placed, ensured, in_layer, at_place};

// The fourteen causes, each with the number that a user sees.
#[derive(Clone, Copy, Debug, PartialEq, Eq, Hash)]
pub enum Cause {
    TableLength = 1,
    TableNotWhole = 2,
    NotFinite = 3,
    NotAdmitted = 4,
    TooManyPieces = 5,
    NoRoom = 6,
    NoEditNumber = 7,
    NothingToUndo = 8,
    NoAnswer = 9,
    BadResult = 10,
    NoRowLeft = 11,
    ReferenceChanged = 12,
    BadRadius = 13,
    Malformed = 14,
}

impl Cause {
    pub fn number(self) -> u8
        ensures { result ≡ number_of self }
    {
        self as u8
    }
}

#[derive(Clone, Copy, Debug, PartialEq, Eq, Hash)]
pub enum Layer {
    Host,
    Space,
    Line,
    Table,
    Job,
}

// The place is a pair, a cell, an appended point or a line of a job, counted from 1, or 0 where there is none.
#[derive(Clone, Copy, Debug, PartialEq, Eq, Hash)]
pub struct Fault {
    pub cause: Cause,
    pub layer: Layer,
    pub place: usize,
}

impl Fault {
    pub fn new(cause: Cause, layer: Layer) -> Fault
        ensures { result ≡ raised cause layer }
    {
        Fault {
            cause,
            layer,
            place: 0,
        }
    }

    // The same fault, with the place that its caller knows.
    pub fn at(self, place: usize) -> Fault
        ensures { result ≡ placed place self }
    {
        Fault { place, ..self }
    }
}

// Goes on where the condition holds.
pub fn ensure(holds: bool, cause: Cause, layer: Layer) -> Result<(), Fault>
    ensures { result ≡ ensured holds cause layer }
{
    if holds {
        Ok(())
    } else {
        Err(Fault::new(cause, layer))
    }
}

// A worker that several layers share refuses with a cause alone; the call above it names its layer.
pub fn in_layer<T>(res: Result<T, Cause>, layer: Layer) -> Result<T, Fault>
    ensures { result ≡ in_layer res layer }
{
    res.map_err(|cause| Fault::new(cause, layer))
}

// What a walk makes of a result at its place, so that `?` can carry it on.
pub fn at_place<T>(res: Result<T, Fault>, place: usize) -> Result<T, Fault>
    ensures { result ≡ at_place res place }
{
    res.map_err(|fault| fault.at(place))
}
