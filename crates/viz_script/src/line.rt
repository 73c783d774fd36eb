//! What a line of a script says.

ghost use Rattle.std.specs.Prelude.{◌≡◌, codes, IfOk};
ghost use Rattle.viz_words.specs.Words.{words_of};
ghost use Rattle.viz_words.specs.Gives.{Gives};
ghost use Rattle.viz_script.specs.Orders.{seen, load_in, update_in, audit_in, order_in};
ghost use Rattle.viz_script.specs.Lines.{is_actor, alone, command_in, actor_in, words_in, line_in};
ghost use Rattle.viz_script.specs.Steps.Heard.{heard, heard_result, IsActor, HasActor};

use crate::order::Order;
use viz_base::Shape;
use viz_words::{
    ScriptRefusal, Verb, due, edit_in, file_name, four, is_plain, is_skipped, natural, next_word,
    node_name, number, three, two, verb_of,
};

/// The greatest number of an actor.
pub(crate) const ACTORS: usize = 8;

/// What a line says.
#[derive(Debug, Drop)]
pub enum Said {
    Nothing,
    Phase,
    Begin { actor: u32 },
    End { actor: u32 },
    Order { actor: u32, order: Order },
}

#[tactic(auto, unfolding(crate::specs::Orders::load_in))]
fn load_in(text: &[u8]) -> Result<Order, ScriptRefusal>
    ensures { Gives seen result (load_in (words_of text.now)) }
{
    let (node, file) = two(text)?;
    let node = node_name(node)?;
    let file = file_name(file)?;
    Ok(Order::Load { node, file })
}

#[tactic(auto, unfolding(crate::specs::Orders::update_in))]
fn update_in(text: &[u8]) -> Result<Order, ScriptRefusal>
    ensures { Gives seen result (update_in (words_of text.now)) }
{
    let (node, file, pieces, workers) = four(text)?;
    let node = node_name(node)?;
    let file = file_name(file)?;
    let pieces = natural(pieces, 1, 64)?;
    let workers = natural(workers, 1, 64)?;
    let shape = Shape { pieces, workers };
    Ok(Order::Update { node, file, shape })
}

#[tactic(auto, unfolding(crate::specs::Orders::audit_in))]
fn audit_in(text: &[u8]) -> Result<Order, ScriptRefusal>
    ensures { Gives seen result (audit_in (words_of text.now)) }
{
    let (node, pieces, workers) = three(text)?;
    let node = node_name(node)?;
    let pieces = natural(pieces, 1, 64)?;
    let workers = natural(workers, 1, 64)?;
    let shape = Shape { pieces, workers };
    Ok(Order::Audit { node, shape })
}

/// The order of a command with the words behind it, as they stand to the end of its line. It is
/// refused where the words are too few or too many, or one of them isn't what is due there.
pub fn order_in(verb: Verb, text: &[u8]) -> Result<Order, ScriptRefusal>
    ensures value { Gives seen result (order_in verb (words_of text.now)) }
{
    match verb {
        Verb::Load => load_in(text),
        Verb::Update => update_in(text),
        Verb::Audit => audit_in(text),
        _ => Ok(Order::Do(edit_in(verb, text)?)),
    }
}

fn is_actor(actor: &i64, actors: u32) -> bool
    ensures { result ≡ is_actor actor.now actors }
{
    1 <= *actor && *actor <= ACTORS as i64 && *actor <= i64::from(actors)
}

/// What was said, where no further word stands.
fn alone(said: Said, text: &[u8]) -> Result<Said, ScriptRefusal>
    requires actor { HasActor said }
    ensures gives { Gives heard result (alone (heard said) (words_of text.now)) }
    ensures actor { IfOk result HasActor }
{
    match next_word(text) {
        None => Ok(said),
        Some(_) => Err(ScriptRefusal::Arity),
    }
}

/// What a command of an actor says with the words behind it.
fn command_in(actor: u32, verb: Verb, text: &[u8]) -> Result<Said, ScriptRefusal>
    requires known { IsActor actor }
    ensures gives { Gives heard result (command_in actor verb (words_of text.now)) }
    ensures actor { IfOk result HasActor }
{
    match verb {
        Verb::Begin => alone(Said::Begin { actor }, text),
        Verb::End => alone(Said::End { actor }, text),
        _ => {
            let order = order_in(verb, text)?;
            Ok(Said::Order { actor, order })
        }
    }
}

fn actor_in(actor: &i64, actors: u32, text: &[u8]) -> Result<Said, ScriptRefusal>
    ensures gives { Gives heard result (actor_in actor.now actors (words_of text.now)) }
    ensures actor { IfOk result HasActor }
{
    let verb = verb_of(text)?;
    if !is_actor(actor, actors) {
        return Err(ScriptRefusal::ActorRange);
    }
    let (_, rest) = due(text)?;
    command_in(*actor as u32, verb, rest)
}

fn words_in(text: &[u8], actors: u32) -> Result<Said, ScriptRefusal>
    ensures gives { Gives heard result (words_in actors (words_of text.now)) }
    ensures actor { IfOk result HasActor }
{
    let Some((word, rest)) = next_word(text) else {
        return Ok(Said::Nothing);
    };
    if word == b"phase".as_slice() {
        return alone(Said::Phase, rest);
    }
    match number(word) {
        Some(actor) => actor_in(&actor, actors, rest),
        None => Err(ScriptRefusal::Word),
    }
}

/// What the line says, where there are so many actors.
pub(crate) fn line_in(text: &[u8], actors: u32) -> Result<Said, ScriptRefusal>
    ensures said { heard_result result ≡ line_in actors text.now }
    ensures actor { IfOk result HasActor }
{
    if is_skipped(text) {
        return Ok(Said::Nothing);
    }
    if !is_plain(text) {
        return Err(ScriptRefusal::Word);
    }
    words_in(text, actors)
}
