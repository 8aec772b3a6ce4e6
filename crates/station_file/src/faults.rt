// Why a station file is refused, and where.
ghost use Rattle.std.specs.Prelude.{◌≡◌};
ghost use Rattle.station_file.specs.Faults.{field_number, station_number, field_fault, station_fault, raised};

// The field layer, by the numbers of its refusals.
#[derive(Clone, Copy, Debug, PartialEq, Eq)]
pub enum FieldCause {
    NotName = 5,
    NotNumber = 8,
}

// The station layer, by the numbers of its refusals.
#[derive(Clone, Copy, Debug, PartialEq, Eq)]
pub enum StationCause {
    Size = 1,
    NoEnd = 2,
    TooManyLines = 3,
    Letter = 4,
    NameTaken = 6,
    FieldCount = 7,
    UnknownChild = 9,
    ChildTwice = 10,
}

// Where a station's fault arose.
#[derive(Clone, Copy, Debug, PartialEq, Eq)]
pub enum StationLayer {
    Field(FieldCause),
    Station(StationCause),
}

// A field that is refused; line and field count from 1.
#[derive(Clone, Copy, Debug, PartialEq, Eq)]
pub struct FieldFault {
    pub line: usize,
    pub field: usize,
    pub cause: FieldCause,
}

// A file that is refused; line and field are 0 where none is named.
#[derive(Clone, Copy, Debug, PartialEq, Eq)]
pub struct StationFault {
    pub line: usize,
    pub field: usize,
    pub layer: StationLayer,
}

impl FieldCause {
    // The number of the refusal, which is the cause's discriminant.
    pub fn number(self) -> u64
        ensures is_number { result ≡ field_number self }
    {
        self as u64
    }
}

impl StationCause {
    // The number of the refusal, which is the cause's discriminant.
    pub fn number(self) -> u64
        ensures is_number { result ≡ station_number self }
    {
        self as u64
    }
}

impl FieldFault {
    pub(crate) fn at(line: usize, field: usize, cause: FieldCause) -> FieldFault
        ensures { result ≡ field_fault line field cause }
    {
        FieldFault { line, field, cause }
    }
}

impl StationFault {
    // A fault of the station layer.
    pub(crate) fn at(line: usize, field: usize, cause: StationCause) -> StationFault
        ensures { result ≡ station_fault line field cause }
    {
        StationFault {
            line,
            field,
            layer: StationLayer::Station(cause),
        }
    }
}

impl From<FieldFault> for StationFault {
    ghost from_gives = { λ f r. r ≡ raised f };

    fn from(f: FieldFault) -> StationFault {
        StationFault {
            line: f.line,
            field: f.field,
            layer: StationLayer::Field(f.cause),
        }
    }
}
