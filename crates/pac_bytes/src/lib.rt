//! Fields of files: numbers of fixed width, the lowest byte first, and values.
//!
//! - [`u8_at`], [`u16_at`], [`u32_at`], [`u64_at`]: the number at an offset and the offset after it, or [`Short`].
//! - [`value_at`]: the value at an offset and the offset after it, or the first [`ValueFault`] from the left.
//!   [`type_at`]: the type by its tag alone.
//! - [`typed_at`], [`key_at`]: the value and the key of a required type, or the first [`TypedFault`].
//! - [`put_u8`], [`put_u16`], [`put_u32`], [`put_u64`], [`put_value`], [`put_key`]: append a field. [`value_len`],
//!   [`key_len`]: the length of a field, at most 66.
//!
//! ```
//! use pac_bytes::{put_value, value_at};
//! use pac_value::Value;
//!
//! let mut bytes = Vec::new(alloc);
//! put_value(&mut bytes, &Value::Int(5))?; // 01 05 00 00 00 00 00 00 00
//! let field = value_at(&bytes, 0); // Ok((Value::Int(5), 9))
//! ```
//!
//! An int is the byte 1 and eight bytes in two's complement. A text is the byte 2, a byte with its length, and its
//! bytes. A bool has no bytes. `Short` is reported at the field that is cut, `Tag` at a byte that is no tag, `Bad` at
//! the tag of a text that is too long or not printable. The typed readers report `Wrong` at the tag of another type,
//! and where the others report `Bad`. No reader takes memory.
//!
//! Each format has two definitions in `specs/`. Its *spelling* is a function from data to bytes: the meaning, and what
//! is appended. Its *reading* is a function on the bytes from an offset: the data and the rest, or the first fault.
//! Each reader but [`type_at`] has these clauses: it returns what reading gives (`exact`); what it returns is spelled at the offset
//! (`found`); what is spelled at the offset is what it returns, whatever follows (`again`); the offset that it returns is no
//! further than the end (`inside`). `found` and `again` hold for every
//! codec, and codecs are closed under concatenation, choice by a test or a type, repetition, and bounded length
//! (`proofs/Codec.antt`, `Lists.antt`, `Filling.antt`).
#![tactic(auto)]

mod fault;
mod fields;
mod keys;
mod typed;
mod values;

pub use fault::{Short, TypedFault, ValueFault};
pub use fields::{put_u8, put_u16, put_u32, put_u64, u8_at, u16_at, u32_at, u64_at};
pub use keys::{key_at, key_len, put_key};
pub use typed::typed_at;
pub use values::{MAX_VALUE_LEN, put_value, type_at, value_at, value_len};
