// The kinds of a log's records, and how many bytes a record of each kind has.
ghost use Rattle.std.specs.Prelude.{◌≡◌, drop};
ghost use Rattle.model.specs.Log.{record_size, record_length};
ghost use Rattle.wire.specs.Kinds.{byte_of, Decodes};

// What a record states: a member and its bond, a checkpoint under its parent, one vote, a quota for quorums, or the
// votes of several members for one link.
#[derive(Clone, Copy, Debug, PartialEq, Eq)]
pub enum Kind {
    Member,
    Checkpoint,
    Vote,
    Quorum,
    Bundle,
}

// A byte that begins no record.
#[derive(Clone, Copy, Debug, PartialEq, Eq)]
pub struct UnknownKind(pub u8);

impl TryFrom<u8> for Kind {
    type Error = UnknownKind;

    ghost try_from_gives = { Decodes };

    fn try_from(byte: u8) -> Result<Self, UnknownKind> {
        match byte {
            1 => Ok(Kind::Member),
            2 => Ok(Kind::Checkpoint),
            3 => Ok(Kind::Vote),
            4 => Ok(Kind::Quorum),
            5 => Ok(Kind::Bundle),
            0 | 6..=255 => Err(UnknownKind(byte)),
        }
    }
}

impl Kind {
    // A record's bytes in all, its kind byte among them.
    #[tactic(auto, unfolding(model::specs::Log::record_size, model::specs::Log::size_of, model::specs::Log::kind_of))]
    pub fn size(self) -> usize
        ensures { result ≡ record_size (byte_of self) }
    {
        match self {
            Kind::Member => 11,
            Kind::Checkpoint => 65,
            Kind::Vote => 75,
            Kind::Quorum => 5,
            Kind::Bundle => 89,
        }
    }
}

// A record's bytes in all, by its kind byte; 0 for a kind that is unknown.
pub fn record_size(byte: u8) -> usize
    ensures { result ≡ record_size byte }
{
    match Kind::try_from(byte) {
        Ok(kind) => kind.size(),
        Err(_) => 0,
    }
}

// The bytes that reading on passes over at `at`: the record's, or none where it is unknown or cut, or nothing is left.
pub fn record_length(log: &[u8], at: usize) -> usize
    ensures { result ≡ record_length (drop at log.now) }
{
    let Some(byte) = log.get(at) else {
        return 0;
    };
    let size = record_size(*byte);
    if log.len() - at < size { 0 } else { size }
}
