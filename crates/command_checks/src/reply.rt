//! Replies: a status, and the text that is to be written with it.
ghost use Rattle.std.specs.Prelude.{◌≡◌, ◌++◌, IfOk, OnOk, Ok, codes};
ghost use Rattle.blz_value.specs.Text.{escaped};
ghost use Rattle.command_checks.specs.Ran.{answer_of, Concludes};
ghost use Rattle.command_checks.specs.declared.status.Status.TheVariants.{Done};

use crate::status::Status;
use crate::stop::Stop;
use blz_value::write_escaped;
use std::alloc::{AllocError, Global};

/// A status, and the text that is to be written with it.
#[derive(Drop)]
pub struct Reply {
    pub status: Status,
    pub text: Vec<u8>,
}

/// The reply of a command that has done all of its work, with its text.
pub fn done(text: Vec<u8>) -> Reply
    ensures { answer_of result ≡ record { status = Done; text = text.items } }
{
    Reply {
        status: Status::Done,
        text,
    }
}

/// This line, in a list of its own.
pub fn line(alloc: Global, text: &str) -> Result<Vec<u8>, AllocError>
    ensures { IfOk result (λ line. line.items ≡ text.now) }
{
    Vec::from_slice(alloc, text.as_bytes())
}

// The line of these words and the name of a file.
fn name_line(alloc: Global, words: &str, name: &str) -> Result<Vec<u8>, AllocError>
    ensures { IfOk result (λ line. line.items ≡ words.now ++ escaped name.now ++ codes "\n") }
{
    let mut line = Vec::from_slice(alloc, words.as_bytes())?;
    write_escaped(name, &mut line)?;
    line.push(b'\n')?;
    Ok(line)
}

/// The reply at the end of a command: its own, or the line of what stopped it.
pub fn conclusion(alloc: Global, outcome: Result<Reply, Stop>) -> Result<Reply, AllocError>
    ensures { IfOk result (λ reply. Concludes outcome (answer_of reply)) }
{
    match outcome {
        Ok(reply) => Ok(reply),
        Err(Stop::Refused(text)) => Ok(Reply {
            status: Status::Refused,
            text,
        }),
        Err(Stop::Failed(name)) => Ok(Reply {
            status: Status::ReadFault,
            text: name_line(alloc, "cannot read ", name.as_str())?,
        }),
        Err(Stop::NoMemory) => Err(AllocError),
    }
}
