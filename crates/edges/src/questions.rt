// The questions that a board answers.
use crate::answers::{Found, YES};
use circuit::Board;
use std::fmt;

#[derive(Clone, Copy, Debug, PartialEq, Eq)]
pub enum Question {
    Parts,
    Nets,
    Class(u16),
    Size(u16),
    // of a net, at a place in its list
    Part(u16, u16),
    // a part, on a net
    On(u16, u16),
}

impl fmt::Display for Question {
    fn fmt<W: fmt::Write>(&self, f: &mut fmt::Formatter<W>) -> fmt::Result {
        match *self {
            Question::Parts => write!(f, "parts()"),
            Question::Nets => write!(f, "nets()"),
            Question::Class(part) => write!(f, "class({part})"),
            Question::Size(net) => write!(f, "size({net})"),
            Question::Part(net, place) => write!(f, "part({net}, {place})"),
            Question::On(part, net) => write!(f, "on({part}, {net})"),
        }
    }
}

#[derive(Clone, Copy, Debug, PartialEq, Eq)]
pub enum Reply {
    Number(Found),
    Truth(bool),
}

impl fmt::Display for Reply {
    fn fmt<W: fmt::Write>(&self, f: &mut fmt::Formatter<W>) -> fmt::Result {
        match *self {
            Reply::Number(found) => write!(f, "{found}"),
            Reply::Truth(truth) => f.write_str(YES.of(truth)),
        }
    }
}

// A question is data that is printed too, so it is matched here and is no closure.
pub fn reply_of<B: Board>(board: &B, question: Question) -> Reply {
    match question {
        Question::Parts => Reply::Number(Found(Some(board.parts()))),
        Question::Nets => Reply::Number(Found(Some(board.nets()))),
        Question::Class(part) => Reply::Number(Found(board.class(part))),
        Question::Size(net) => Reply::Number(Found(Some(board.size(net)))),
        Question::Part(net, place) => Reply::Number(Found(board.part(net, place))),
        Question::On(part, net) => Reply::Truth(board.on(part, net)),
    }
}

pub fn ask_all<B: Board>(
    rt: &HostRuntime,
    name: &str,
    board: &B,
    questions: &[Question],
) -> anyhow::Result<()> {
    for question in questions {
        let reply = reply_of(board, *question);
        println!(rt; "{name}, {question}: {reply}")?;
    }
    Ok(())
}
