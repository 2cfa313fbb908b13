//! How the program ends.
ghost use Rattle.std.specs.Prelude.{◌≡◌};
ghost use Rattle.base_core.specs.Status.{number_of};

/// How a run ends, of a session or of a command. The number of each is the program's exit status.
#[derive(Clone, Copy, Debug, PartialEq, Eq)]
pub enum Status {
    /// All was done: no error and no admission, or a session that its client ended as agreed.
    Done,
    /// The client left without having asked for the end.
    LeftEarly,
    /// The words of the command line are no form.
    NoForm,
    /// The link failed.
    LinkFailed,
    OutOfMemory,
    /// The sink failed.
    NotWritten,
    /// The link ended.
    LinkEnded,
    /// The bytes that came are no frames.
    FrameFault,
    /// Some file has an error or an admission.
    Unclean,
    /// A file was not read.
    NotRead,
    /// As many bytes came as a session takes.
    TakenLimit,
    /// A file is no text within the limit.
    NotText,
}

impl Status {
    /// The exit status.
    pub fn number(self) -> u8
        ensures { result ≡ number_of self }
    {
        match self {
            Status::Done => 0,
            Status::LeftEarly => 1,
            Status::NoForm => 2,
            Status::LinkFailed => 3,
            Status::OutOfMemory => 4,
            Status::NotWritten => 5,
            Status::LinkEnded => 6,
            Status::FrameFault => 7,
            Status::Unclean => 8,
            Status::NotRead => 9,
            Status::TakenLimit => 10,
            Status::NotText => 11,
        }
    }
}
