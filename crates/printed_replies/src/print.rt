//! The lines that are printed of a reply.

ghost use Rattle.std.specs.Prelude.{◌≡◌, ◌++◌, IfOk, OnOk, string_bytes};
ghost use Rattle.ballots.specs.Replies.{answered, fault};
ghost use Rattle.printed_replies.specs.Lines.{reply_text, answer_text, behind_text, elsewhere_text, indented};

use ballots::{Answer, Reply};
use fault_codes::Code;
use std::alloc::{AllocError, Global};

/// What is printed of a request's reply: `done P` or `fault CODE P`, with its line feed. It fails where memory is refused.
pub fn reply_text(alloc: Global, reply: Reply) -> Result<String, AllocError>
    ensures { IfOk result (λ text. string_bytes text ≡ reply_text reply) }
{
    match reply {
        Reply::Done(position) => format!(in alloc; "done {position}\n"),
        Reply::Fault(code, position) => format!(in alloc; "fault {code} {position}\n"),
    }
}

/// What is printed of an answer where so many positions are applied: `at P` and the lines of the answer after two spaces each, none for an
/// empty text, or `at P fault CODE`. It fails where memory is refused.
pub fn answer_text(alloc: Global, position: u32, answer: &Answer) -> Result<String, AllocError>
    ensures { IfOk result (λ text. string_bytes text ≡ answer_text position (answered answer.now)) }
{
    match answer {
        Answer::Fault(code) => fault_text(alloc, position, *code),
        Answer::Text(text) => {
            let mut out = format!(in alloc; "at {position}\n")?;
            if !text.is_empty() {
                push_indented(&mut out, text.as_str())?;
            }
            Ok(out)
        }
    }
}

/// What is printed where fewer positions are applied than a question asks for, so many: `behind P`, with its line feed. It fails where memory
/// is refused.
pub fn behind_text(alloc: Global, position: u32) -> Result<String, AllocError>
    ensures { IfOk result (λ text. string_bytes text ≡ behind_text position) }
{
    format!(in alloc; "behind {position}\n")
}

/// What is printed where the member that was asked does not lead, with the number of the one that does, as far as it knows, or 0:
/// `elsewhere M`, with its line feed. It fails where memory is refused.
pub fn elsewhere_text(alloc: Global, member: u8) -> Result<String, AllocError>
    ensures { IfOk result (λ text. string_bytes text ≡ elsewhere_text member) }
{
    format!(in alloc; "elsewhere {member}\n")
}

/// `at P fault CODE`, with its line feed.
fn fault_text(alloc: Global, position: u32, code: Code) -> Result<String, AllocError>
    ensures { IfOk result (λ text. string_bytes text ≡ answer_text position (fault code)) }
{
    format!(in alloc; "at {position} fault {code}\n")
}

/// Appends the lines of a text after two spaces each.
fn push_indented(out: &mut String, text: &str) -> Result<(), AllocError>
    ensures { OnOk result (string_bytes out.new ≡ string_bytes out.old ++ indented text.now) }
{
    for line in text.split('\n') {
        out.push_str("  ")?;
        out.push_str(line)?;
        out.push_str("\n")?;
    }
    Ok(())
}
