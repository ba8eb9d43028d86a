//! The actions of `vCont`: how tasks are to go on.

ghost use Rattle.std.specs.Prelude.{◌≡◌};
ghost use Rattle.std.specs.List.{find, list_all};
ghost use Rattle.rt_packet.specs.request.Actions.{action_of, action_text, actions_of, are_actions, part_of, resumed};
ghost use Rattle.rt_packet.specs.request.Ids.{names, is_among};

use crate::request::ids::{Tasks, tasks_of};
use crate::request::numbers::{cut_at, is_hexadecimal};
use std::marker::Model;

/// How a task goes on.
#[derive(Clone, Copy, Debug, PartialEq, Eq)]
pub enum Action {
    /// Up to the next stop.
    Continue,
    /// One tick.
    Step,
}

/// The actions of a `vCont`, each with the tasks that it is for. They borrow their text from the payload; contracts see them as a
/// list, in their order.
#[derive(Debug, Drop)]
pub struct Resumed<'a> {
    text: &'a [u8],
}

impl<'a> Model for Resumed<'a> {
    ghost use Rattle.std.specs.Prelude.{List};
    ghost use Rattle.rt_packet.specs.declared.request.actions.Action.{Action};
    ghost use Rattle.rt_packet.specs.declared.request.ids.Tasks.{Tasks};
    ghost use Rattle.rt_packet.specs.request.Actions.{actions_of};

    ghost Value = { List (Action × Tasks) };

    ghost view = { λ r. actions_of r.text.now };
}

impl<'a> Resumed<'a> {
    /// How the task of this number, from 0, goes on: by the first action that is for it. Nothing where none is.
    pub fn action_of(&self, task: u32) -> Option<Action>
        ensures { result ≡ action_of self.now task }
    {
        let (action, _tasks) = first_for(self.text, task)?;
        Some(action)
    }

    /// Whether each action is for every task, or for one that is listed: by its number, from 0.
    pub fn are_among(&self, listed: &[bool]) -> bool
        ensures { result ≡ list_all (λ part. is_among listed.now part.1) self.now }
    {
        all_among(self.text, listed)
    }
}

/// What an action's text says: `c`, `s`, or `C` or `S` and a signal, which is dropped.
fn action_text(text: &[u8]) -> Option<Action>
    ensures { result ≡ action_text text.now }
{
    match text {
        [b'c'] => Some(Action::Continue),
        [b's'] => Some(Action::Step),
        [letter, high, low] if is_hexadecimal(*high) && is_hexadecimal(*low) => match *letter {
            b'C' => Some(Action::Continue),
            b'S' => Some(Action::Step),
            _ => None,
        },
        _ => None,
    }
}

/// An action with its tasks: `ACTION`, which is for every task, or `ACTION:ID`.
fn part_of(text: &[u8]) -> Option<(Action, Tasks)>
    ensures { result ≡ part_of text.now }
{
    match cut_at(b':', text) {
        Some((action, id)) => Some((action_text(action)?, tasks_of(id)?)),
        None => Some((action_text(text)?, Tasks::All)),
    }
}

/// The first action of a text that is for a task, with its tasks.
fn first_for(text: &[u8], task: u32) -> Option<(Action, Tasks)>
    ensures { result ≡ find (λ part. names part.1 task) (actions_of text.now) }
{
    text.split(|byte| *byte == b';')
        .filter_map(|part| part_of(part))
        .find(|part| part.1.names(task))
}

/// Whether each action of a text is for every task, or for one that is listed.
fn all_among(text: &[u8], listed: &[bool]) -> bool
    ensures { result ≡ list_all (λ part. is_among listed.now part.1) (actions_of text.now) }
{
    text.split(|byte| *byte == b';')
        .filter_map(|part| part_of(part))
        .all(|part| part.1.is_among(listed))
}

/// Whether a text is actions that semicolons separate.
fn are_actions(text: &[u8]) -> bool
    ensures { result ≡ are_actions text.now }
{
    text.split(|byte| *byte == b';')
        .all(|part| part_of(part).is_some())
}

/// The actions of a text. Nothing where one of them is none.
pub(crate) fn actions_in(text: &[u8]) -> Option<Resumed<'_>>
    ensures { result ≡ resumed text.now }
{
    if are_actions(text) {
        Some(Resumed { text })
    } else {
        None
    }
}
