// The words of a command line (own).
ghost use Rattle.std.specs.Prelude.{◌≡◌, map, IfSome};
ghost use Rattle.std.specs.Option.{option_map};
ghost use Rattle.cut_app.specs.Forms.{form_of, form_of_film, form_of_import, form_of_two};
ghost use Rattle.cut_app.specs.Views.{form_view, IsWithinLimits};

use crate::numbers::{Coding, coding_in, film_in};
use cut_make::Film;

/// A command and what is in its words.
#[derive(Clone, Copy)]
pub(crate) enum Command<'a> {
    Check {
        file: &'a str,
    },
    Cut {
        list: &'a str,
        out: &'a str,
        source: &'a str,
    },
    Export {
        file: &'a str,
        out: &'a str,
    },
    Import {
        y4m: &'a str,
        out: &'a str,
        coding: Coding,
    },
    Make {
        film: Film,
        out: &'a str,
    },
    Plan {
        list: &'a str,
        source: &'a str,
    },
}

// The command of three words that have a form.
#[tactic(auto, unfolding(crate::specs::Forms::form_of_two))]
fn command_of_two<'a>(command: &str, one: &'a str, other: &'a str) -> Option<Command<'a>>
    ensures form { option_map form_view result ≡ form_of_two command.now one.now other.now }
    ensures limits { IfSome result (λ command. IsWithinLimits (form_view command)) }
{
    if command == "plan" {
        return Some(Command::Plan {
            list: one,
            source: other,
        });
    }
    if command == "export" {
        return Some(Command::Export {
            file: one,
            out: other,
        });
    }
    None
}

// The command of five words that have a form.
#[tactic(auto, unfolding(crate::specs::Forms::form_of_import))]
fn command_of_import<'a>(
    command: &str,
    y4m: &'a str,
    out: &'a str,
    qi: &str,
    keys: &str,
) -> Option<Command<'a>>
    ensures form { option_map form_view result ≡ form_of_import command.now y4m.now out.now qi.now keys.now }
    ensures limits { IfSome result (λ command. IsWithinLimits (form_view command)) }
{
    if command != "import" {
        return None;
    }
    match coding_in(qi, keys) {
        Some(coding) => Some(Command::Import { y4m, out, coding }),
        None => None,
    }
}

// The command of six words that have a form.
#[tactic(auto, unfolding(crate::specs::Forms::form_of_film))]
fn command_of_film<'a>(
    command: &str,
    start: &str,
    frames: &str,
    w: &str,
    h: &str,
    out: &'a str,
) -> Option<Command<'a>>
    ensures form { option_map form_view result ≡ form_of_film command.now start.now frames.now w.now h.now out.now }
    ensures limits { IfSome result (λ command. IsWithinLimits (form_view command)) }
{
    if command != "make" {
        return None;
    }
    match film_in(start, frames, w, h) {
        Some(film) => Some(Command::Make { film, out }),
        None => None,
    }
}

/// The command of words that have a form.
pub(crate) fn command_of<'a>(words: &[&'a str]) -> Option<Command<'a>>
    ensures form { option_map form_view result ≡ form_of (map (λ word. word.now) words.now) }
    ensures limits { IfSome result (λ command. IsWithinLimits (form_view command)) }
{
    if let [command, file] = words {
        if *command == "check" {
            return Some(Command::Check { file });
        }
        return None;
    }
    if let [command, one, other] = words {
        return command_of_two(command, one, other);
    }
    if let [command, y4m, out, qi, keys] = words {
        return command_of_import(command, y4m, out, qi, keys);
    }
    if let [command, start, frames, w, h, out] = words {
        return command_of_film(command, start, frames, w, h, out);
    }
    let [command, list, out, source] = words else {
        return None;
    };
    if *command != "cut" {
        return None;
    }
    Some(Command::Cut { list, out, source })
}
