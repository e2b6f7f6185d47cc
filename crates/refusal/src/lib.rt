// Why a call says no: one constructor for each row of document 01's table, in the table's order.
#![tactic(auto)]

ghost use Rattle.std.specs.Prelude.{◌≡◌};
ghost use Rattle.refusal.specs.Refusal.{number, answer_number};

#[derive(Clone, Copy, Debug, PartialEq, Eq)]
pub enum Refusal {
    // 1: a lent buffer has the wrong length
    WrongLength,
    // 2: image not good
    ImageNotGood,
    // 3: a message block's check is wrong
    WrongCheck,
    // 4: message ill-formed
    IllFormed,
    // 5: an argument outside its range; a job not held here or not by the sender
    OutOfRange,
    // 6: sender or asked party not another peer, or addressee not us
    NotPeer,
    // 7: value over 24 bytes
    ValueTooLong,
    // 8: given context above the present reading's in any entry
    ContextAhead,
    // 9: message names an own counter above our base
    HistoryLost,
    // 10: a version's dot is stored here with other contents, or stored or listed here for another point
    DotClash,
    // 11: a row would need a counter above base + 64
    RowTooFar,
    // 12: more than 8 versions
    TooManyVersions,
    // 13: more than 64 stored points
    TooManyPoints,
    // 14: 60 own dots listed already
    OwnListFull,
    // 15: own base is 4,294,967,295
    CountersUsedUp,
}

// The number that document 01's table gives.
impl From<Refusal> for u32 {
    ghost from_gives = { λ r n. n ≡ number r };

    fn from(r: Refusal) -> u32 {
        match r {
            Refusal::WrongLength => 1,
            Refusal::ImageNotGood => 2,
            Refusal::WrongCheck => 3,
            Refusal::IllFormed => 4,
            Refusal::OutOfRange => 5,
            Refusal::NotPeer => 6,
            Refusal::ValueTooLong => 7,
            Refusal::ContextAhead => 8,
            Refusal::HistoryLost => 9,
            Refusal::DotClash => 10,
            Refusal::RowTooFar => 11,
            Refusal::TooManyVersions => 12,
            Refusal::TooManyPoints => 13,
            Refusal::OwnListFull => 14,
            Refusal::CountersUsedUp => 15,
        }
    }
}

// "An accepted call returns 0"; a refused one the refusal's number.
pub fn answer_number(answer: Result<(), Refusal>) -> u32
    ensures { result ≡ answer_number answer }
{
    match answer {
        Ok(()) => 0,
        Err(r) => u32::from(r),
    }
}
