//! Functions of strings (Functions and Operators, sections 7.4 and 7.5).

ghost use Rattle.std.specs.Prelude.{◌≡◌, ◌==◌, ◌++◌, ◌∷◌, [], pos, length, chars, IfOk, IfErr, OnOk, Ok, Err};
ghost use Rattle.std.specs.List as list;
ghost use Rattle.std.specs.List.{All, flat_map};
ghost use Rattle.values.specs.Items.{IsThere};
ghost use Rattle.query_meaning.specs.Environment.{no_environment};
ghost use Rattle.query_meaning.specs.Functions as functions;
ghost use Rattle.query_meaning.specs.Operators.{between_atoms};
ghost use Rattle.query_meaning.specs.Running.{atoms, trees_of};
ghost use Rattle.evaluation.specs.Gives.{Fails, Gives, Stand};
ghost use Rattle.query_strings.specs.Tests.{holds_by};
ghost use Rattle.query_calls.specs.Texts.{IsGathered, IsGatheredMore, concatenated_of, length_of};

use crate::sequences::{boolean_of, integer_of, string_of};
use evaluation::{Evaluation, Sequence};
use fault_codes::Code;
use query_strings::{TextTest, all_printed, characters, item_text, one_text};
use read_items::ReadItem;
use values::{Atom, Item, ValueFault};

/// The text of a string argument, empty where there is no value. Code: XPTY0004 where there is more than one value, or an integer or a
/// boolean.
fn string_argument(values: &[Atom]) -> Result<&str, Code>
    ensures ok { IfOk result (λ t. functions.string_argument values.now ≡ Ok t.now) }
    ensures code { IfErr result (λ code. functions.string_argument values.now ≡ Err code) }
{
    match values {
        [] => Ok(""),
        _ => one_text(values),
    }
}

fn tested(
    run: &mut Evaluation,
    test: TextTest,
    texts: &[Atom],
    parts: &[Atom],
) -> Result<Sequence, ValueFault>
    ensures { Gives (functions.of_texts (holds_by test) texts.now parts.now) run.old result run.new }
{
    let text = string_argument(texts)?;
    let part = string_argument(parts)?;
    boolean_of(run, test.holds(text, part))
}

/// `contains`: whether the first text holds the second (Functions and Operators, section 7.5.1). Codes: PXQ0002 where a string value is
/// too long or too little work is left; XPTY0004 where an argument has more than one value, or an integer or a boolean.
pub fn contains(
    run: &mut Evaluation,
    text: &Sequence,
    part: &Sequence,
) -> Result<Sequence, ValueFault>
    requires text { Stand text.now run.old }
    requires part { Stand part.now run.old }
    ensures { Gives (between_atoms (functions.of_texts functions.contains) text.now part.now) run.old result run.new }
{
    let texts = run.atoms(text)?;
    let parts = run.atoms(part)?;
    tested(run, TextTest::Contains, &texts, &parts)
}

/// `starts-with`: whether the first text begins with the second (Functions and Operators, section 7.5.2). Codes: as those of `contains`.
pub fn starts_with(
    run: &mut Evaluation,
    text: &Sequence,
    part: &Sequence,
) -> Result<Sequence, ValueFault>
    requires text { Stand text.now run.old }
    requires part { Stand part.now run.old }
    ensures { Gives (between_atoms (functions.of_texts (list.starts_with ◌==◌)) text.now part.now) run.old result run.new }
{
    let texts = run.atoms(text)?;
    let parts = run.atoms(part)?;
    tested(run, TextTest::StartsWith, &texts, &parts)
}

/// `ends-with`: whether the first text ends with the second (Functions and Operators, section 7.5.3). Codes: as those of `contains`.
pub fn ends_with(
    run: &mut Evaluation,
    text: &Sequence,
    part: &Sequence,
) -> Result<Sequence, ValueFault>
    requires text { Stand text.now run.old }
    requires part { Stand part.now run.old }
    ensures { Gives (between_atoms (functions.of_texts (list.ends_with ◌==◌)) text.now part.now) run.old result run.new }
{
    let texts = run.atoms(text)?;
    let parts = run.atoms(part)?;
    tested(run, TextTest::EndsWith, &texts, &parts)
}

/// `string-length`: how many characters a text has (Functions and Operators, section 7.4.4). Codes: PXQ0002 where a string value is too
/// long or too little work is left; XPTY0004 where there is more than one value, or an integer or a boolean.
pub fn string_length(run: &mut Evaluation, items: &Sequence) -> Result<Sequence, ValueFault>
    requires stand { Stand items.now run.old }
    ensures { Gives (functions.string_length items.now) run.old result run.new }
{
    if let [item] = items.as_slice() {
        return length_of_item(run, item);
    }
    let values = run.atoms(items)?;
    length_of(run, &values)
}

#[tactic(auto, using(crate::proofs::Alone::length_gives, crate::proofs::Alone::length_fails))]
fn length_of_item(run: &mut Evaluation, item: &Item) -> Result<Sequence, ValueFault>
    requires there { IsThere (trees_of run.old) item.now }
    ensures { Gives (functions.string_length (item.now ∷ [])) run.old result run.new }
{
    let text = item_text(run, &ReadItem::unread(item))?;
    counted_of(run, text.as_str())
}

fn length_of(run: &mut Evaluation, values: &[Atom]) -> Result<Sequence, ValueFault>
    ensures { Gives (length_of values.now) run.old result run.new }
{
    let text = string_argument(values)?;
    counted_of(run, text)
}

/// How many characters a text has, as an item.
fn counted_of(run: &mut Evaluation, text: &str) -> Result<Sequence, ValueFault>
    ensures { Gives (functions.integer (pos (length (chars text.now)))) run.old result run.new }
{
    match i64::try_from(characters(text)) {
        Ok(count) => integer_of(run, count),
        // So long a text has no place in memory.
        Err(_) => Err(ValueFault::Memory),
    }
}

/// The atomic values of arguments, one after the other, and whether one of the arguments has several.
#[derive(Drop)]
struct ArgumentValues {
    values: Vec<Atom>,
    has_several: bool,
}

/// `concat`: the texts of arguments that have at most one value each (Functions and Operators, section 7.4.1). It takes the work of the typed
/// values, and that of the result. Codes: PXQ0002 where a string value or the result is too long, or too little work is left; XPTY0004
/// where an argument has more than one value.
pub fn concat(run: &mut Evaluation, arguments: &[Sequence]) -> Result<Sequence, ValueFault>
    requires stand { All (λ s. Stand s run.old) arguments.now }
    ensures { Gives (functions.concatenated no_environment arguments.now) run.old result run.new }
{
    let gathered = gathered(run, arguments)?;
    concatenated(run, &gathered)
}

fn gathered(run: &mut Evaluation, arguments: &[Sequence]) -> Result<ArgumentValues, ValueFault>
    requires stand { All (λ s. Stand s run.old) arguments.now }
    ensures ok { IfOk result (λ g. IsGathered arguments.now run.old run.new g) }
    ensures code { IfErr result (λ fault. Fails (functions.all_atoms arguments.now run.old) fault) }
{
    let mut gathered = ArgumentValues {
        values: Vec::with_capacity(run.alloc(), arguments.len())?,
        has_several: false,
    };
    for argument in arguments {
        gathered = and_argument(run, gathered, argument)?;
    }
    Ok(gathered)
}

/// The values before, and then those of an argument.
fn and_argument(
    run: &mut Evaluation,
    gathered: ArgumentValues,
    argument: &Sequence,
) -> Result<ArgumentValues, ValueFault>
    requires stand { Stand argument.now run.old }
    ensures ok { IfOk result (λ g. IsGatheredMore argument.now run.old run.new gathered g) }
    ensures code { IfErr result (λ fault. Fails (atoms argument.now run.old) fault) }
{
    if let [item] = argument.as_slice() {
        return and_alone(run, gathered, item);
    }
    let ArgumentValues {
        mut values,
        has_several,
    } = gathered;
    let mut more = run.atom_list(argument)?;
    let has_several = has_several || more.len() > 1;
    values.append(&mut more)?;
    Ok(ArgumentValues {
        values,
        has_several,
    })
}

/// The same of an argument that is one item, whose value is not listed first.
#[tactic(auto, using(crate::proofs::Arguments::alone_gathered, crate::proofs::Arguments::alone_fails))]
fn and_alone(
    run: &mut Evaluation,
    gathered: ArgumentValues,
    item: &Item,
) -> Result<ArgumentValues, ValueFault>
    requires there { IsThere (trees_of run.old) item.now }
    ensures ok { IfOk result (λ g. IsGatheredMore (item.now ∷ []) run.old run.new gathered g) }
    ensures code { IfErr result (λ fault. Fails (atoms (item.now ∷ []) run.old) fault) }
{
    let ArgumentValues {
        mut values,
        has_several,
    } = gathered;
    values.push(run.atom(item)?)?;
    Ok(ArgumentValues {
        values,
        has_several,
    })
}

fn concatenated(run: &mut Evaluation, gathered: &ArgumentValues) -> Result<Sequence, ValueFault>
    ensures { Gives (concatenated_of gathered.now.values.items gathered.now.has_several) run.old result run.new }
{
    if gathered.has_several {
        return Err(ValueFault::Code(Code::XPTY0004));
    }
    let text = all_printed(run.alloc(), &gathered.values)?;
    let text = text.into_text(run.alloc())?;
    string_of(run, text)
}
