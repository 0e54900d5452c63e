//! What a line asks for.
ghost use Rattle.std.specs.Prelude.{◌≡◌, option_map};
ghost use Rattle.std.specs.Option.{option_zip};
ghost use Rattle.script.specs.Commands.{asked};
ghost use Rattle.script.specs.Lines.{words_of};
ghost use Rattle.script.specs.Requests.{bare_command, command_by, directly, long_command, longest_command, request_of};
ghost use Rattle.script.specs.Requests.{short_command, text_of, wanted};

use crate::command::{Command, Request};
use crate::number::read_number;
use crate::word::next_word;
use std::str;

/// What the line asks for.
pub fn read_request(line: &[u8]) -> Request<'_>
    ensures { wanted result ≡ request_of (words_of line.now) }
{
    match next_word(line) {
        None => Request::Nothing,
        Some((name, rest)) => match read_command(name, rest) {
            Some(command) => Request::Asks(command),
            None => Request::BadLine,
        },
    }
}

fn read_command<'a>(name: &[u8], rest: &'a [u8]) -> Option<Command<'a>>
    ensures { option_map asked result ≡ command_by (text_of name.now) (words_of rest.now) }
{
    let name = text(name)?;
    let Some((first, rest)) = next_word(rest) else {
        return bare_command(name);
    };
    let Some((second, rest)) = next_word(rest) else {
        return short_command(name, first);
    };
    let Some((third, rest)) = next_word(rest) else {
        return long_command(name, first, second);
    };
    match next_word(rest) {
        None => longest_command(name, first, second, third),
        Some(_) => None,
    }
}

/// A command without arguments.
fn bare_command<'a>(name: &str) -> Option<Command<'a>>
    ensures { option_map asked result ≡ bare_command name.now }
{
    match name {
        "list" => Some(Command::List),
        "rebalance" => Some(Command::Rebalance),
        "begin" => Some(Command::Begin),
        "step" => Some(Command::Step),
        "phase" => Some(Command::Phase),
        "certificate" => Some(Command::Certificate),
        _ => None,
    }
}

/// A command with one argument.
fn short_command<'a>(name: &str, word: &'a [u8]) -> Option<Command<'a>>
    ensures { option_map asked result ≡ short_command name.now word.now }
{
    match name {
        "start" => Some(Command::Start { id: text(word)? }),
        "delete" => Some(Command::Delete { id: text(word)? }),
        "forget" => Some(Command::Forget { id: text(word)? }),
        "state" => Some(Command::State { id: text(word)? }),
        "sets" => Some(Command::Sets { id: text(word)? }),
        "fork" => Some(Command::Fork {
            pid: read_number(word)?,
        }),
        "exit" => Some(Command::Exit {
            pid: read_number(word)?,
        }),
        "offline" => Some(Command::Offline {
            cpu: read_number(word)?,
        }),
        "online" => Some(Command::Online {
            cpu: read_number(word)?,
        }),
        "rebalance" => directly(Command::RebalanceDirectly, word),
        "begin" => directly(Command::BeginDirectly, word),
        _ => None,
    }
}

/// A command of the direct order, if the word behind its name is `direct`.
fn directly<'a>(command: Command<'a>, word: &[u8]) -> Option<Command<'a>>
    ensures { option_map asked result ≡ directly (asked command.entry) (text_of word.now) }
{
    if text(word)? == "direct" {
        Some(command)
    } else {
        None
    }
}

/// A command with two arguments.
fn long_command<'a>(name: &str, first: &'a [u8], second: &'a [u8]) -> Option<Command<'a>>
    ensures { option_map asked result ≡ long_command name.now (option_zip (text_of first.now) (text_of second.now)) }
{
    let id = text(first)?;
    let second = text(second)?;
    match name {
        "create" => Some(Command::Create { id, bundle: second }),
        "update" => Some(Command::Update { id, bundle: second }),
        "kill" => Some(Command::Kill { id, signal: second }),
        _ => None,
    }
}

/// A command with three arguments.
fn longest_command<'a>(
    name: &str,
    first: &'a [u8],
    second: &'a [u8],
    third: &'a [u8],
) -> Option<Command<'a>>
    ensures { option_map asked result ≡ longest_command name.now
        (option_zip (text_of first.now) (option_zip (text_of second.now) (text_of third.now))) }
{
    let id = text(first)?;
    let bundle = text(second)?;
    let cpus = text(third)?;
    match name {
        "adopt" => Some(Command::Adopt { id, bundle, cpus }),
        _ => None,
    }
}

/// The word as a text, where it is UTF-8.
fn text(word: &[u8]) -> Option<&str>
    ensures { option_map (λ s. s.now) result ≡ text_of word.now }
{
    match str::from_utf8(word) {
        Ok(text) => Some(text),
        Err(_) => None,
    }
}
