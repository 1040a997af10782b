//! Scripts.

ghost use Rattle.std.specs.Prelude.{◌≡◌, ◌≤◌, ◌++◌, ◌∷◌, [], length, All, OnOk};

use sql_names::Text;
use std::alloc::{AllocError, Global};
use std::marker::Model;

/// Statements' texts, each of at most 65,535 bytes and without its semicolon.
#[derive(Drop)]
pub struct Script {
    texts: Vec<Text>,
}

impl Model for Script {
    ghost use Rattle.std.specs.Prelude.{◌≤◌, List, ℕ, All, length};

    ghost Value = { List (List ℕ) };

    ghost view = { λ s. s.texts.items };

    ghost invariant = { λ s. All (λ text. length text ≤ 65535) s.texts.items };
}

impl Script {
    // The script of no statement. It takes no memory.
    pub(crate) fn new(alloc: Global) -> Script
        ensures { result ≡ [] }
    {
        Script {
            texts: Vec::new(alloc),
        }
    }

    // One statement more.
    pub(crate) fn push(&mut self, text: Text) -> Result<(), AllocError>
        requires { length text ≤ 65535 }
        ensures { OnOk result (self.new ≡ self.old ++ text ∷ []) }
    {
        self.texts.push(text)?;
        Ok(())
    }

    /// Its texts, in order.
    pub fn texts(&self) -> &[Text]
        ensures texts { result.now ≡ self.now }
        ensures short { All (λ text. length text ≤ 65535) result.now }
    {
        self.texts.as_slice()
    }
}
