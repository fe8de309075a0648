//! The tags of records.
ghost use Rattle.jobfile.specs.Records.{Tagged};

use rules::refusal::Refusal;

/// The tag of a record: what it stands for.
#[derive(Clone, Copy, PartialEq, Eq, Debug)]
pub(crate) enum Tag {
    Kind,
    Operation,
    Limits,
    LibraryKind,
}

impl TryFrom<u8> for Tag {
    type Error = Refusal;

    ghost try_from_gives = { Tagged };

    fn try_from(byte: u8) -> Result<Self, Refusal> {
        match byte {
            1 => Ok(Tag::Kind),
            2 => Ok(Tag::Operation),
            3 => Ok(Tag::Limits),
            4 => Ok(Tag::LibraryKind),
            _ => Err(Refusal::UnknownRecord),
        }
    }
}
