// Why a run is refused, and where in the file.
ghost use Rattle.std.specs.Prelude.{◌≡◌, Some, None};
ghost use Rattle.netfile.specs.Faults.{number, layer};
ghost use Rattle.netfile.specs.declared.fault.FileFault.TheVariants.{Sheet};

use sheet::SheetFault;

#[derive(Clone, Copy)]
pub enum FileFault {
    // The buffer is too short for what is to be written to it.
    BufferTooShort,
    // A line breaks the grammar.
    Grammar,
    // A line's mark is out of order, or there is no line.
    Order,
    // The file has more than 16,384 bytes.
    TooLong,
    // A 17th question.
    TooManyQuestions,
    // The sheet refused what a line says.
    Sheet(SheetFault),
}

impl FileFault {
    // The number by which people know the fault.
    pub fn number(&self) -> u32
        ensures { result ≡ number self.now }
    {
        match self {
            FileFault::BufferTooShort => 11,
            FileFault::Grammar => 12,
            FileFault::Order => 13,
            FileFault::TooLong | FileFault::TooManyQuestions => 14,
            FileFault::Sheet(fault) => fault.number(),
        }
    }

    // The layer that found it: 1 for the file, 2 for the sheet, 3 for the ledger.
    pub fn layer(&self) -> u32
        ensures { result ≡ layer self.now }
    {
        match self {
            FileFault::Sheet(SheetFault::Ledger(_)) => 3,
            FileFault::Sheet(_) => 2,
            _ => 1,
        }
    }
}

impl From<SheetFault> for FileFault {
    ghost from_gives = { λ fault r. r ≡ Sheet fault };

    fn from(fault: SheetFault) -> FileFault {
        FileFault::Sheet(fault)
    }
}

// Where a fault is told: a line and a column of the file, both from 1.
#[derive(Clone, Copy)]
pub struct Position {
    pub line: usize,
    pub column: usize,
}

// The first fault of a run, and where it is told; a fault of the whole file belongs to no line.
#[derive(Clone, Copy)]
pub struct RunFault {
    pub fault: FileFault,
    pub at: Option<Position>,
}

impl RunFault {
    // A fault of the whole file.
    pub(crate) fn of_file(fault: FileFault) -> RunFault
        ensures { result ≡ record { fault = fault; at = None } }
    {
        RunFault { fault, at: None }
    }

    // A fault of a line.
    pub(crate) fn of_line(fault: FileFault, line: usize, column: usize) -> RunFault
        ensures { result ≡ record { fault = fault; at = Some (record { line = line; column = column }) } }
    {
        RunFault {
            fault,
            at: Some(Position { line, column }),
        }
    }
}
