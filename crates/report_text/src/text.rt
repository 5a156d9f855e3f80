//! A text of a report in JSON.
ghost use Rattle.std.specs.Prelude.{◌≡◌, IfOk};
ghost use Rattle.serde.specs.Event.{Logs, text as text_event};
ghost use Rattle.report_lines.specs.Words.{word_text};

use report_lines::{Word, push_word};
use serde::{Described, Serialize, Serializer};
use std::alloc::{AllocError, Global};
use std::marker::Model;

/// A text. Contracts see its bytes.
#[derive(Drop)]
pub struct Text {
    characters: String,
}

impl Model for Text {
    ghost use Rattle.std.specs.Prelude.{ℕ, List, string_bytes};

    ghost Value = { List ℕ };

    ghost view = { λ text. string_bytes text.characters };
}

impl Text {
    /// The text of a word of a report.
    pub fn of(alloc: Global, word: &Word<'_>) -> Result<Text, AllocError>
        ensures { IfOk result (λ text. text ≡ word_text word.now) }
    {
        let mut bytes = Vec::new(alloc);
        push_word(&mut bytes, word)?;
        match String::from_utf8(bytes) {
            Ok(characters) => Ok(Text { characters }),
            // It doesn't come to this: the words of reports are letters, digits and signs.
            Err(_) => Err(AllocError),
        }
    }
}

impl Described for Text {
    ghost writes = { λ text old new. Logs old new (text_event text) };
}

impl Serialize for Text {
    fn serialize<S: Serializer>(&self, out: &mut S) -> Result<(), S::Error> {
        out.str(self.characters.as_str())
    }
}
