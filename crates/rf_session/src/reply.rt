//! Replies, and how they are written.

ghost use Rattle.std.specs.Prelude.{◌≡◌, ◌≤◌, IfOk, OnErr, Err};
ghost use Rattle.std.specs.Io.KnownBytes.{Appends};
ghost use Rattle.rf_base.specs.Cause.{Rose};
ghost use Rattle.rf_base.specs.Piece.{AppendsPrefix};
ghost use Rattle.rf_session.specs.Reply as spec;

use crate::machine::Stop;
use rf_base::{Failed, Items, Sink, put};
use rf_show::Refusal;

/// Why a line is refused.
#[derive(Clone, Copy, PartialEq, Eq)]
pub enum Code {
    /// E1: the line is in no command's grammar.
    UnknownLine,
    /// E2: a profile, zone or carrier that is named is not there.
    Unknown,
    /// E3: the new name is there already.
    Taken,
    /// E4: a number is out of its range.
    Number,
    /// E5: a carrier has the profile.
    InUse,
    /// E6: there is no earlier, or no later, show.
    NoStep,
    /// E7: the carrier has no frequency.
    NoFrequency,
    /// E8: the carrier is locked.
    Locked,
    /// E9: there are as many as there may be.
    Full,
    /// E10: the line's file is too large, or is no file of its kind.
    BadFile,
    /// E11: the shelf failed at the line's file.
    ShelfFault,
    /// E12: the line is longer than a line may be.
    LongLine,
}

impl Code {
    /// The reply line of the refusal.
    fn line(self) -> &'static str
        ensures { result.now ≡ spec.refusal_text self }
    {
        match self {
            Code::UnknownLine => "error E1\n",
            Code::Unknown => "error E2\n",
            Code::Taken => "error E3\n",
            Code::Number => "error E4\n",
            Code::InUse => "error E5\n",
            Code::NoStep => "error E6\n",
            Code::NoFrequency => "error E7\n",
            Code::Locked => "error E8\n",
            Code::Full => "error E9\n",
            Code::BadFile => "error E10\n",
            Code::ShelfFault => "error E11\n",
            Code::LongLine => "error E12\n",
        }
    }

    /// The reply line of the refusal, as bytes.
    pub fn text(self) -> &'static [u8]
        ensures { result.now ≡ spec.refusal_text self }
    {
        self.line().as_bytes()
    }

    /// The word of the code, which its reply line has between `error ` and its line feed.
    pub fn word(self) -> &'static str
        ensures { result.now ≡ spec.code_word self }
    {
        let line = self.line();
        &line["error ".len()..line.len() - 1]
    }
}

impl From<Refusal> for Code {
    fn from(refusal: Refusal) -> Code
        ensures { result ≡ spec.code_of refusal }
    {
        match refusal {
            Refusal::Unknown => Code::Unknown,
            Refusal::Taken => Code::Taken,
            Refusal::Number => Code::Number,
            Refusal::InUse => Code::InUse,
            Refusal::NoFrequency => Code::NoFrequency,
            Refusal::Locked => Code::Locked,
            Refusal::Full => Code::Full,
        }
    }
}

/// What a line is answered.
#[derive(Drop)]
pub enum Reply {
    /// It is done: `ok`.
    Accepted,
    /// It asks for this text.
    Text(Items<u8>),
    /// It is refused, and the machine is as before.
    Error(Code),
    /// Its file is refused, by this reply line of E10, and the machine is as before.
    BadFile(Items<u8>),
}

impl Reply {
    /// The bytes of the reply.
    pub fn text(&self) -> &[u8]
        ensures { result.now ≡ spec.text_of self.now }
    {
        match self {
            Reply::Accepted => b"ok\n",
            Reply::Text(text) => text.as_slice(),
            Reply::Error(code) => code.text(),
            Reply::BadFile(text) => text.as_slice(),
        }
    }

    /// Whether the line is refused.
    pub fn is_refusal(&self) -> bool
        ensures { result ≡ spec.is_refusal self.now }
    {
        matches!(self, Reply::Error(_) | Reply::BadFile(_))
    }
}

/// Writes a reply, and answers whether it is a refusal.
pub(crate) fn say<O: Sink>(output: &mut O, reply: &Reply) -> Result<bool, Stop>
    ensures whole { IfOk result (λ refusal. Appends (O.contents output.old) (O.contents output.new) (spec.text_of reply.now)) }
    ensures refuses { IfOk result (λ refusal. refusal ≡ spec.is_refusal reply.now) }
    ensures part { OnErr result (AppendsPrefix (O.contents output.old) (O.contents output.new) (spec.text_of reply.now)) }
    ensures only { OnErr result (result ≡ Err Stop.Write) }
    ensures later { O.faults output.old ≤ O.faults output.new }
    ensures fault { OnErr result (Rose (O.faults output.old) (O.faults output.new)) }
{
    match put(output, reply.text()) {
        Ok(()) => Ok(reply.is_refusal()),
        Err(Failed) => Err(Stop::Write),
    }
}
