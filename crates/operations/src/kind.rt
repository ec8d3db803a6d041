ghost use Rattle.std.specs.Prelude.{◌≡◌};
ghost use Rattle.operations.specs.Kinds.{reads as kind_reads, writes as kind_writes, data_kind, acquire_kind, release_kind, code_of, Decodes};

// The six kinds of operation; the number of each is its code in a record file.
#[derive(Clone, Copy, PartialEq, Eq, Debug)]
pub enum Kind {
    DataRead = 0,
    DataWrite = 1,
    // a synchronization read that is never paired
    SyncRead = 2,
    // a synchronization write that is never paired
    SyncWrite = 3,
    // a synchronization read
    Acquire = 4,
    // a synchronization write
    Release = 5,
}

// A number that is no kind's code.
#[derive(Clone, Copy, PartialEq, Eq, Debug)]
pub struct UnknownKind(pub u8);

impl From<Kind> for u8 {
    ghost from_gives = { λ kind code. code ≡ code_of kind };

    fn from(kind: Kind) -> u8 {
        kind as u8
    }
}

impl TryFrom<u8> for Kind {
    type Error = UnknownKind;

    ghost try_from_gives = { Decodes };

    fn try_from(code: u8) -> Result<Kind, UnknownKind> {
        match code {
            0 => Ok(Kind::DataRead),
            1 => Ok(Kind::DataWrite),
            2 => Ok(Kind::SyncRead),
            3 => Ok(Kind::SyncWrite),
            4 => Ok(Kind::Acquire),
            5 => Ok(Kind::Release),
            _ => Err(UnknownKind(code)),
        }
    }
}

impl Kind {
    pub fn reads(self) -> bool
        ensures { result ≡ kind_reads self }
    {
        matches!(self, Kind::DataRead | Kind::SyncRead | Kind::Acquire)
    }

    pub fn writes(self) -> bool
        ensures { result ≡ kind_writes self }
    {
        matches!(self, Kind::DataWrite | Kind::SyncWrite | Kind::Release)
    }

    pub fn is_data(self) -> bool
        ensures { result ≡ data_kind self }
    {
        matches!(self, Kind::DataRead | Kind::DataWrite)
    }

    pub fn is_acquire(self) -> bool
        ensures { result ≡ acquire_kind self }
    {
        matches!(self, Kind::Acquire)
    }

    pub fn is_release(self) -> bool
        ensures { result ≡ release_kind self }
    {
        matches!(self, Kind::Release)
    }
}
