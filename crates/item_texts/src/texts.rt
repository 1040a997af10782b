//! The texts of needs and descriptors, by the same calls that write them to a sink.

ghost use Rattle.std.specs.Prelude.{◌≡◌, [], IfOk, Some};
ghost use Rattle.cat_items.specs.ItemTexts as spec;
ghost use Rattle.svc_io.specs.Faults.{nothing_beside};

use crate::items::{write_item, write_need};
use cat_items::{Item, Need};
use sql_tree::Text;
use std::alloc::{AllocError, Global};
use svc_io::{Failed, Sink};

/// A sink that keeps what it is given, and fails where memory runs out.
#[derive(Drop)]
struct TextSink {
    text: Text,
    faults: u64,
}

impl Sink for TextSink {
    ghost given = { λ s. Some s.text };

    ghost faults = { λ s. s.faults };

    ghost beside = { λ _. nothing_beside };

    fn put(&mut self, piece: &[u8]) -> Result<usize, Failed> {
        match self.text.push_all(piece) {
            Ok(()) => Ok(piece.len()),
            Err(_) => {
                self.faults = self.faults.saturating_add(1);
                Err(Failed)
            }
        }
    }
}

fn no_text(alloc: Global) -> TextSink
    ensures { result.text ≡ [] }
{
    TextSink {
        text: Text::new(alloc),
        faults: 0,
    }
}

/// The text by which a refusal tells a need, as `SELECT ON COLUMN S.T.C`. `Err` is want of memory.
pub fn need_text(alloc: Global, need: &Need) -> Result<Text, AllocError>
    ensures { IfOk result (λ text. text ≡ spec.need_text need.now) }
{
    let mut sink = no_text(alloc);
    match write_need(&mut sink, need) {
        Ok(()) => Ok(sink.text),
        Err(_) => Err(AllocError),
    }
}

/// The text by which a refusal tells a descriptor, as `SELECT ON TABLE S.T BY A TO B`. `Err` is want of memory.
pub fn item_text(alloc: Global, item: &Item) -> Result<Text, AllocError>
    ensures { IfOk result (λ text. text ≡ spec.item_text item.now) }
{
    let mut sink = no_text(alloc);
    match write_item(&mut sink, item) {
        Ok(()) => Ok(sink.text),
        Err(_) => Err(AllocError),
    }
}
