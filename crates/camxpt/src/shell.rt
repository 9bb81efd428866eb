//! The shells that complete the program's words.

/// The names of the shells that complete the program's words.
pub(crate) const SHELLS: &str = "bash zsh fish";

/// A shell that completes the program's words.
#[derive(Clone, Copy)]
pub enum Shell {
    /// The GNU project's shell.
    Bash,
    /// The Z shell.
    Zsh,
    /// The friendly interactive shell.
    Fish,
}

impl Shell {
    /// The shell of this name, in small letters.
    pub fn named(name: &str) -> Option<Shell> {
        match name {
            "bash" => Some(Shell::Bash),
            "zsh" => Some(Shell::Zsh),
            "fish" => Some(Shell::Fish),
            _ => None,
        }
    }
}
