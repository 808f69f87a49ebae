// Why a slip is not written to its end.
use refusal::Refusal;
use std::io;

#[derive(Drop)]
pub(crate) enum Stop {
    // what is asked is refused
    Refused(Refusal),
    // what was to be said could not be written
    Unwritten(io::Error),
}

impl From<Refusal> for Stop {
    fn from(r: Refusal) -> Stop {
        Stop::Refused(r)
    }
}

impl From<io::Error> for Stop {
    fn from(e: io::Error) -> Stop {
        Stop::Unwritten(e)
    }
}
