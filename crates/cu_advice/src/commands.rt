//! The commands and the words behind each.

use crate::ended::Ended;

/// A command, and the names of the words behind it.
pub type Command = (&'static str, &'static str);

/// All of them, in the order in which the usage shows them.
pub const COMMANDS: [Command; 12] = [
    ("serve", "NODES ROADS PROFILES ORDER"),
    ("build", "NODES ROADS PROFILES ORDER OUT"),
    ("ask", "HIERARCHY"),
    ("desk", "HIERARCHY OUT"),
    ("edit", "HIERARCHY EDITS OUT"),
    ("verify", "HIERARCHY"),
    ("migrate", "HIERARCHY OUT"),
    ("order", "NODES ROADS PROFILES OUT"),
    ("measure", "MEASURED OUT"),
    ("wait", "NODES ROADS MEASURED ORDER"),
    ("make", "START W H NODES ROADS PROFILES"),
    ("trial", "START W H K"),
];

/// The names of the words behind a command; none where it is no command.
pub fn names_behind(command: &str) -> Option<&'static str> {
    for (name, names) in &COMMANDS {
        if *name == command {
            return Some(*names);
        }
    }
    None
}

/// The word of a command that has this name, as `NODES`; the name itself where the command has none.
pub fn path_of<'a>(ended: &Ended<'a>, name: &'static str) -> &'a str {
    let Some(names) = names_behind(ended.command()) else {
        return name;
    };
    match names.split(' ').position(|there| there == name) {
        Some(place) => ended.word(place.saturating_add(1)).unwrap_or(name),
        None => name,
    }
}

/// The path of the table of profiles, whichever kind the command takes.
pub fn profiles_path<'a>(ended: &Ended<'a>) -> &'a str {
    match ended.command() {
        "wait" | "measure" => path_of(ended, "MEASURED"),
        _ => path_of(ended, "PROFILES"),
    }
}
