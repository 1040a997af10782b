//! The summary of a sample.

ghost use Rattle.std.specs.Prelude.{◌≡◌, ◌++◌, IfOk, OnOk};
ghost use Rattle.sample_runs.specs.Summary as spec;

use crate::kinds::{Kind, count_of};
use itoa::Buffer;
use sessions::Reply;
use sql_tree::Text;
use std::alloc::{AllocError, Global};

#[tactic(auto, unfolding(crate::specs::Summary::line))]
fn put_line(out: &mut Text, word: &[u8], number: usize) -> Result<(), AllocError>
    ensures { OnOk result (out.new ≡ out.old ++ spec.line word.now number) }
{
    let mut buffer = Buffer::new();
    out.push_all(word)?;
    out.push_all(b" ")?;
    out.push_all(buffer.format(number as u64).as_bytes())?;
    out.push_all(b"\n")
}

// The lines of these replies, and of so many items.
pub fn summary(alloc: Global, replies: &[Reply], items: usize) -> Result<Text, AllocError>
    ensures { IfOk result (λ text. text ≡ spec.summary replies.now items) }
{
    let mut out = Text::new(alloc);
    put_line(&mut out, b"statements", replies.len())?;
    put_line(&mut out, b"ok", count_of(Kind::Ok, replies))?;
    put_line(&mut out, b"warn", count_of(Kind::Warn, replies))?;
    put_line(&mut out, b"rows", count_of(Kind::Rows, replies))?;
    put_line(&mut out, b"err", count_of(Kind::Err, replies))?;
    put_line(&mut out, b"items", items)?;
    Ok(out)
}
