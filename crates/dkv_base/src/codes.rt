// The limits of a request, and the codes by which they are told.
ghost use Rattle.std.specs.Prelude.{◌≡◌};
ghost use Rattle.dkv_base.specs.Limits.{limit_code};

/// Why a request is refused without a look at the database. The first that applies in this order, place by place.
#[derive(Clone, Copy, Debug, PartialEq, Eq)]
pub enum Limit {
    /// More than 100 checks.
    TooManyChecks = 1,
    /// More than 1,000 mutations and enqueues.
    TooManyMutations = 2,
    /// A check's key of 0 or more than 2,048 bytes.
    CheckKey = 3,
    /// A check's versionstamp of neither 0 nor 10 bytes.
    CheckStamp = 4,
    /// A kind other than 1 to 5 and 9.
    MutationKind = 5,
    /// A mutation's key of 0 or more than 2,048 bytes; in kind 9, of more than 2,026.
    MutationKey = 6,
    /// No value, and no DELETE.
    NoValue = 7,
    /// An encoding other than 1, 2 and 3, and no DELETE.
    Encoding = 8,
    /// Encoding 2 without eight bytes, and no DELETE.
    Le64Length = 9,
    /// SUM, MAX or MIN of a V8 value.
    V8Operand = 10,
    /// SUM, MAX or MIN of a BYTES value.
    BytesOperand = 11,
    /// A value of more than 65,536 bytes (wide: 262,144), and no DELETE.
    ValueLength = 12,
    /// A payload of more than 65,536 bytes (wide: 262,144).
    PayloadLength = 13,
    /// More than 10 intervals.
    BackoffCount = 14,
    /// An interval above 3,600,000.
    BackoffInterval = 15,
    /// More than 10 keys for an undelivered payload.
    UndeliveredCount = 16,
    /// Such a key of 0 or more than 2,048 bytes.
    UndeliveredKey = 17,
    /// Keys, values and payloads of more than 819,200 bytes (wide: 4,194,304).
    TotalBytes = 18,
    /// Keys of more than 81,920 bytes.
    TotalKeyBytes = 19,
    /// More than 10 ranges.
    TooManyRanges = 20,
    /// A range's start or end of more than 2,049 bytes.
    RangeEnd = 21,
    /// A range's limit below 1.
    RangeLimit = 22,
    /// Limits of more than 1,000 together.
    TooManyEntries = 23,
    /// A watch of 0 or more than 10 keys.
    WatchCount = 24,
    /// A watched key of 0 or more than 2,048 bytes.
    WatchKey = 25,
}

impl Limit {
    /// The code by which a reply tells it, from 1 to 25.
    pub fn code(self) -> u8
        ensures { result ≡ limit_code self }
    {
        self as u8
    }
}
