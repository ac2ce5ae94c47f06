//! Answers.

ghost use Rattle.std.specs.Prelude.{◌≡◌, ◌∷◌, [], ◌≤◌, ◌^◌, IfOk, OnOk, Some, map};
ghost use Rattle.std.specs.List.{join_with_byte};
ghost use Rattle.shelves.specs.Shelf.{shelf_trees};
ghost use Rattle.values.specs.Items.{IsThere, AreThere};
ghost use Rattle.values.specs.Limited.{added};
ghost use Rattle.values.specs.Printing.{item_text};
ghost use Rattle.static_checks.specs.Categories.{is_updating, judged};
ghost use Rattle.ballots.specs.Replies.{answered};
ghost use Rattle.ballots.specs.Terms.{most_answer};
ghost use Rattle.questions.specs.Answers.{answer, of_expression, printed};

use ballots::Answer;
use ballots::limits::MOST_ANSWER;
use evaluator::evaluate;
use fault_codes::Code;
use parser::{Category, Expr, ParseFault, category, parse};
use shelves::Shelf;
use std::alloc::{AllocError, Global};
use trees::Forest;
use values::{Item, LimitedText, ValueFault, push_item};

/// What a question of that text gives from a forest at a level of the language (1 or 2). It fails where memory is refused.
///
/// The answer is the code of the text's first static fault; or `PXQ0004`, where the text is an updating expression; or the code of the
/// first fault of its evaluation; or `PXQ0005`, where the items' texts, joined by line feeds, have more than 32,768 bytes; or these texts.
/// The limit is our own, and an answer never takes more memory than that for its text.
#[tactic(auto, unfolding(crate::specs::Answers::answer))]
pub fn answer(
    alloc: Global,
    forest: &Forest,
    level: u8,
    question: &str,
) -> Result<Answer, AllocError>
    requires next { forest.now.next ≤ 2 ^ 61 }
    ensures { IfOk result (λ a. answered a ≡ answer forest.now level question.now) }
{
    match parse(alloc, level, question) {
        Ok(x) => answer_expression(alloc, forest, &x),
        Err(ParseFault::Static(code)) => Ok(Answer::Fault(code)),
        Err(ParseFault::Memory) => Err(AllocError),
    }
}

/// What an expression gives.
fn answer_expression(alloc: Global, forest: &Forest, x: &Expr) -> Result<Answer, AllocError>
    requires next { forest.now.next ≤ 2 ^ 61 }
    ensures { IfOk result (λ a. answered a ≡ of_expression forest.now x.now) }
{
    if is_updating(x) {
        return Ok(Answer::Fault(Code::PXQ0004));
    }
    match evaluate(alloc, x, forest) {
        Ok(outcome) => answer_items(alloc, outcome.shelf(), outcome.items()),
        Err(ValueFault::Code(code)) => Ok(Answer::Fault(code)),
        Err(ValueFault::Memory) => Err(AllocError),
    }
}

/// Whether an expression is an updating one (XQuery Update Facility 1.0, section 2.1).
fn is_updating(x: &Expr) -> bool
    ensures { result ≡ is_updating (judged x.now).category }
{
    category(x) == Category::Updating
}

/// The texts of items, or the code where they are too long.
fn answer_items(alloc: Global, shelf: &Shelf<'_>, items: &[Item]) -> Result<Answer, AllocError>
    requires there { AreThere (shelf_trees shelf.now) items.now }
    ensures { IfOk result (λ a. answered a ≡ printed (map (item_text (shelf_trees shelf.now)) items.now)) }
{
    let Some((first, others)) = items.split_first() else {
        return Ok(Answer::Text(String::new(alloc)));
    };
    let lines = print_lines(alloc, shelf, first, others)?;
    match lines.into_text() {
        Some(text) => Ok(Answer::Text(text)),
        None => Ok(Answer::Fault(Code::PXQ0005)),
    }
}

/// The texts of an item and of others, with a line feed between each two. Where that becomes too long, the others are left alone.
fn print_lines(
    alloc: Global,
    shelf: &Shelf<'_>,
    first: &Item,
    others: &[Item],
) -> Result<LimitedText, AllocError>
    requires first { IsThere (shelf_trees shelf.now) first.now }
    requires others { AreThere (shelf_trees shelf.now) others.now }
    ensures { IfOk result (λ lines. lines ≡ added (record { most = most_answer; text = Some [] }) (join_with_byte 10 (map (item_text (shelf_trees shelf.now)) (first.now ∷ others.now)))) }
{
    let mut lines = LimitedText::new(alloc, MOST_ANSWER);
    push_item(alloc, &mut lines, shelf, first)?;
    for item in others {
        if lines.is_too_long() {
            return Ok(lines);
        }
        push_line(alloc, &mut lines, shelf, item)?;
    }
    Ok(lines)
}

/// Adds a line feed and the text of an item.
fn push_line(
    alloc: Global,
    lines: &mut LimitedText,
    shelf: &Shelf<'_>,
    item: &Item,
) -> Result<(), AllocError>
    requires { IsThere (shelf_trees shelf.now) item.now }
    ensures { OnOk result (lines.new ≡ added lines.old (10 ∷ item_text (shelf_trees shelf.now) item.now)) }
{
    lines.push("\n")?;
    push_item(alloc, lines, shelf, item)
}
