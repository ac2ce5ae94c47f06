// The lines of a text that say something, one after the other.

ghost use Rattle.std.specs.Prelude.{◌≡◌, ◌==◌, ◌+◌, ◌^◌, ◌≤◌, ◌<◌, [], ◌∷◌, length, IfSome, MatchOption};
ghost use Rattle.paxq_files.specs.Lines.{lines_after};
ghost use Rattle.paxq_files.specs.Script.{says_something};

use line_parts::cut_at;

/// A line that says something, and what stands after it.
#[derive(Clone, Copy, Debug, PartialEq, Eq)]
pub(crate) struct Line<'a> {
    /// Its number in the whole text, counted from 1.
    pub(crate) number: u64,
    /// Its text, without the line feed.
    pub(crate) text: &'a str,
    /// The text after its line feed.
    pub(crate) rest: &'a str,
}

/// Finds the first line that says something, in a text before which `before` lines stand.
#[tactic(auto, unfolding(crate::specs::Lines::lines_after))]
pub(crate) fn first_line(text: &str, before: u64) -> Option<Line<'_>>
    requires { before + length text.now < 2 ^ 64 }
    ensures found { MatchOption result (lines_after before text.now ≡ [])
        (λ line. lines_after before text.now ≡ (line.number, line.text.now) ∷ lines_after line.number line.rest.now) }
    ensures room { IfSome result (λ line. line.number + length line.rest.now ≤ before + length text.now) }
    ensures shorter { IfSome result (λ line. length line.rest.now < length text.now) }
{
    let mut number = before;
    let mut rest = text;
    while !rest.is_empty() {
        let (line, after) = cut_at('\n', rest);
        number += 1;
        rest = after;
        if says_something(line) {
            return Some(Line {
                number,
                text: line,
                rest,
            });
        }
    }
    None
}

// Whether the line is neither empty nor a comment.
fn says_something(line: &str) -> bool
    ensures { result ≡ says_something (0, line.now) }
{
    !line.starts_with('#') && !line.is_empty()
}
