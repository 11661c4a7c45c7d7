// The texts of replies.
ghost use Rattle.std.specs.Prelude.{◌≡◌, ◌<◌, ◌^◌, IfOk};
ghost use Rattle.std.specs.Fmt.{signed_decimal};
ghost use Rattle.std.specs.List.{AllByRecursion};
ghost use Rattle.pac_lines.specs.Lines.{HasNoFeed};
ghost use Rattle.pac_value.specs.Literals.{key_text, value_text};
ghost use Rattle.pac_report.specs.Replies.{shown_row};
ghost use Rattle.pac_run.specs.Texts.{IsPlain, texts};

use pac_base::NoMemory;
use pac_report::push_reply;
use pac_request::Reply;
use pac_types::Catalogue;
use pac_value::{Key, Row, Value};
use std::alloc::Global;

// An int is written without a line feed. This does nothing.
fn plain_int(number: i64)
    ensures { HasNoFeed (signed_decimal number) }
{
    let _number = number;
}

// Nor has a key one.
fn plain_key(key: &Key)
    ensures { HasNoFeed (key_text key.now) }
{
    match key {
        Key::Int(number) => plain_int(*number),
        Key::Text(text) => {
            let _bytes = text.bytes();
        }
    }
}

// Nor has a value one.
fn plain_value(value: &Value)
    ensures { HasNoFeed (value_text value.now) }
{
    match value {
        Value::Int(number) => plain_int(*number),
        Value::Text(text) => {
            let _bytes = text.bytes();
        }
        Value::Bool(_) => {}
    }
}

fn plain_values(values: &[Value])
    ensures { AllByRecursion (λ value. HasNoFeed (value_text value)) values.now }
{
    for value in values {
        plain_value(value);
    }
}

// What stands at a cell is shown without a line feed.
fn plain_row(row: &Option<Row>)
    ensures { HasNoFeed (shown_row row.now) }
{
    if let Some(row) = row {
        plain_values(row.items());
    }
}

// An offset has 64 bits. This does nothing.
fn plain_place(at: usize)
    ensures { at < 2 ^ 64 }
{
    let _at = at;
}

// A reply is plain by the types of what it holds. This does nothing.
fn plain_reply(reply: &Reply)
    ensures { IsPlain reply.now }
{
    match reply {
        Reply::Committed { txn } => {
            let _txn = *txn;
        }
        Reply::Aborted { op, .. } => {
            let _op = *op;
        }
        Reply::AbortedFull { .. } => {}
        Reply::Shown { key, row, .. } => {
            plain_key(key);
            plain_row(row);
        }
        Reply::Refused(fault) => plain_place(fault.at),
        Reply::Saved { txns } => {
            let _txns = *txns;
        }
    }
}

// Replies are plain by the types of what they hold. This does nothing.
pub(crate) fn plain_replies(replies: &[Reply])
    ensures { AllByRecursion IsPlain replies.now }
{
    for reply in replies {
        plain_reply(reply);
    }
}

/// The lines of replies, one after another.
pub(crate) fn reply_texts(
    alloc: Global,
    cat: &Catalogue,
    replies: &[Reply],
) -> Result<Vec<u8>, NoMemory>
    ensures text { IfOk result (λ text. text.items ≡ texts cat.now replies.now) }
    ensures plain { IfOk result (λ _. AllByRecursion IsPlain replies.now) }
{
    let mut text = Vec::new(alloc);
    for reply in replies {
        plain_reply(reply);
        push_reply(&mut text, cat, reply)?;
    }
    Ok(text)
}
