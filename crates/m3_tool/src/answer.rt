//! How a run ends, and what it puts.

ghost use Rattle.std.specs.Prelude.{◌≡◌};
ghost use Rattle.m3_tool.specs.Run.{answer};
ghost use Rattle.m3_tool.specs.Answer.{answer_of, line_of};

use crate::status::Status;

/// A line, or several.
#[derive(Drop)]
pub(crate) enum Text {
    Fixed(&'static str),
    Made(Vec<u8>),
}

/// How a run ends, and what it puts.
#[derive(Drop)]
pub(crate) struct Answer {
    pub status: Status,
    pub text: Text,
}

impl Text {
    pub fn as_bytes(&self) -> &[u8]
        ensures { result.now ≡ line_of self.now }
    {
        match self {
            Text::Fixed(text) => text.as_bytes(),
            Text::Made(text) => text.as_slice(),
        }
    }
}

pub(crate) fn fixed(status: Status, text: &'static str) -> Answer
    ensures { answer_of result ≡ answer status text.now }
{
    Answer {
        status,
        text: Text::Fixed(text),
    }
}

pub(crate) fn made(status: Status, text: Vec<u8>) -> Answer
    ensures { answer_of result ≡ answer status text.items }
{
    Answer {
        status,
        text: Text::Made(text),
    }
}
