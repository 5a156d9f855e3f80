//! The symbol of an element.

ghost use Rattle.std.specs.Prelude.{◌≡◌, ◌∷◌, [], IfSome, IfNone, IsTrue, Some, None, if◌then◌else◌};
ghost use Rattle.std.specs.Str.{bytes_eq};
ghost use Rattle.std.proofs.Common.{rules};
ghost use Rattle.std.specs.Cmp.Rules.{comparing, hashing};
ghost use Rattle.std.specs.Hash as fed;
ghost use Rattle.element_table.specs.SymbolText.{is_symbol};

use std::fmt;
use std::hash::{Hash, Hasher};
use std::marker::Model;

/// The symbol of an element: a capital letter and at most two small letters. Contracts see its
/// letters.
#[derive(Clone, Copy, Debug)]
pub struct Symbol {
    letters: [u8; 3],
    len: u8,
}

impl Model for Symbol {
    ghost use Rattle.std.specs.Prelude.{List, ℕ, take, length};

    ghost Value = { List ℕ };

    ghost use Rattle.element_table.specs.SymbolLayout.{HoldsSymbol, letters_of};

    ghost view = { λ s. take s.len s.letters };

    ghost invariant = { λ s. HoldsSymbol s.len s.letters };

    ghost inverse = { λ text. record { letters = letters_of text; len = length text } };

    ghost use Rattle.element_table.specs.SymbolLayout.{laid_out_again};

    ghost inverse_ok = { λ s h. laid_out_again s h };
}

impl Symbol {
    /// The symbol of a text; `None` where the text isn't a capital letter and at most two small
    /// letters.
    pub fn of(text: &[u8]) -> Option<Symbol>
        ensures { result ≡ (if is_symbol text.now then Some text.now else None) }
    {
        match text {
            [a] if a.is_ascii_uppercase() => Some(Symbol {
                letters: [*a, 0, 0],
                len: 1,
            }),
            [a, b] if a.is_ascii_uppercase() && b.is_ascii_lowercase() => Some(Symbol {
                letters: [*a, *b, 0],
                len: 2,
            }),
            [a, b, c]
                if a.is_ascii_uppercase() && b.is_ascii_lowercase() && c.is_ascii_lowercase() => {
                Some(Symbol {
                    letters: [*a, *b, *c],
                    len: 3,
                })
            }
            _ => None,
        }
    }

    /// The symbol's letters.
    pub fn text(&self) -> &[u8]
        ensures letters { result.now ≡ self.now }
        ensures symbol { IsTrue (is_symbol self.now) }
    {
        &self.letters[..self.len as usize]
    }
}

impl fmt::Display for Symbol {
    ghost output = { λ s. Some s };

    fn fmt<W: fmt::Write>(&self, f: &mut fmt::Formatter<W>) -> fmt::Result {
        match str::from_utf8(self.text()) {
            Ok(letters) => f.write_str(letters),
            Err(_) => unreachable!(),
        }
    }
}

impl PartialEq for Symbol {
    ghost eq = { bytes_eq };

    ghost laws = { Prim.search (comparing, rules) };

    fn eq(&self, other: &Symbol) -> bool {
        self.text() == other.text()
    }
}

impl Eq for Symbol {
    ghost laws = { Prim.search (comparing, rules) };
}

impl Hash for Symbol {
    ghost hash_input = { λ s. fed.slice fed.u8 s };

    ghost respects_eq = { Prim.search (hashing, rules) };

    fn hash<H: Hasher>(&self, state: &mut H) {
        self.text().hash(state);
    }
}
