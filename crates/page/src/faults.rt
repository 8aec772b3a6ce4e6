// Why a page is refused, and where.
ghost use Rattle.std.specs.Prelude.{◌≡◌};
ghost use Rattle.page.specs.Faults.{page_number, number_of, layer_of, page_fault, raised};

use station_file::faults::{FieldCause, StationCause, StationFault, StationLayer};

// The page layer, by the numbers of its refusals.
#[derive(Clone, Copy, Debug, PartialEq, Eq)]
pub enum PageCause {
    NoRoom = 31,
    NoOrder = 40,
    OrderField = 41,
}

// Where a page's fault arose.
#[derive(Clone, Copy, Debug, PartialEq, Eq)]
pub enum PageLayer {
    Field(FieldCause),
    Station(StationCause),
    Page(PageCause),
}

// A page that is refused; lines of a station count from 1 without the order line, and line and field are 0 where none
// is named.
#[derive(Clone, Copy, Debug, PartialEq, Eq)]
pub struct PageFault {
    pub line: usize,
    pub field: usize,
    pub layer: PageLayer,
}

impl PageCause {
    // The number of the refusal, which is the cause's discriminant.
    pub fn number(self) -> u64
        ensures is_number { result ≡ page_number self }
    {
        self as u64
    }
}

impl PageFault {
    // A fault of the page layer.
    pub fn at(line: usize, field: usize, cause: PageCause) -> PageFault
        ensures says_where { result ≡ page_fault line field cause }
    {
        let layer = PageLayer::Page(cause);
        PageFault { line, field, layer }
    }
}

impl PageLayer {
    // The number of the refusal.
    pub fn number(self) -> u64
        ensures is_number { result ≡ number_of self }
    {
        match self {
            PageLayer::Field(cause) => cause.number(),
            PageLayer::Station(cause) => cause.number(),
            PageLayer::Page(cause) => cause.number(),
        }
    }

    pub fn letter(self) -> u8
        ensures is_letter { result ≡ layer_of self }
    {
        match self {
            PageLayer::Field(_) => b'N',
            PageLayer::Station(_) => b'S',
            PageLayer::Page(_) => b'P',
        }
    }
}

impl From<StationFault> for PageFault {
    ghost from_gives = { λ f r. r ≡ raised f };

    fn from(f: StationFault) -> PageFault {
        let layer = match f.layer {
            StationLayer::Field(cause) => PageLayer::Field(cause),
            StationLayer::Station(cause) => PageLayer::Station(cause),
        };
        PageFault {
            line: f.line,
            field: f.field,
            layer,
        }
    }
}
