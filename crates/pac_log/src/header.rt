// The header of a log: its name, how many transactions came before, and the text of its catalogue.
ghost use Rattle.std.specs.Prelude.{◌≡◌, ◌≤◌, ◌+◌, ◌++◌, ◌∷◌, [], ℕ, List, Some, length, IfOk, IfSome, IsErrOf, OnOk};
ghost use Rattle.pac_value.specs.Growth.{Grew};
ghost use Rattle.pac_syntax.specs.declared.limits.TheConstants.{MAX_CATALOGUE};
ghost use Rattle.pac_types.specs.Typing.{CatalogueState};
ghost use Rattle.pac_log.specs.declared.damage.DamageKind.{DamageKind as ADamageKind};
ghost use Rattle.pac_log.specs.declared.header.HeaderForm.{HeaderForm as AForm};
ghost use Rattle.pac_log.specs.declared.limits.TheConstants.{MAX_BASE};
ghost use Rattle.pac_log.specs.Logs.{base_in, form_bytes, start_bytes, header_bytes, header_with};
ghost use Rattle.pac_types.specs.Accepted.{IsAccepted};

use crate::{LogError, MAX_BASE};
use pac_base::{Listed, NoMemory, Refusal};
use pac_bytes::{put_u32, put_u64, u32_at, u64_at};
use pac_flat::accepted;
use pac_outside::GATE_SHUT;
use pac_syntax::MAX_CATALOGUE;
use pac_types::Catalogue;
use std::alloc::Global;

// What a log begins with: one before which no transaction came, and one that says how many did.
const NAME: &[u8; 8] = b"PACMLOG1";

const LATER_NAME: &[u8; 8] = b"PACMLOG2";

/// The most bytes that a header has before the catalogue's text.
pub(crate) const MAX_HEAD_LEN: usize = 20;

/// The form of a log's header.
#[derive(Clone, Copy, Debug, PartialEq, Eq)]
pub enum HeaderForm {
    /// That of a store's first log: no transaction came before.
    First,
    /// That of each later segment: so many came before.
    Later { base: u64 },
}

impl HeaderForm {
    /// How many transactions came before.
    pub fn base(&self) -> u64
        ensures { result ≡ base_in self.now }
    {
        match self {
            HeaderForm::First => 0,
            HeaderForm::Later { base } => *base,
        }
    }

    /// How many bytes a header of this form has before the catalogue's text.
    pub(crate) fn head_len(&self) -> usize
        ensures exact { (len : ℕ) → result ≡ length (start_bytes self.now len) }
        ensures few { result ≤ MAX_HEAD_LEN }
    {
        match self {
            HeaderForm::First => 12,
            HeaderForm::Later { base: _ } => 20,
        }
    }
}

/// What a log begins with: the form of its header, and the text of its catalogue.
#[derive(Drop)]
pub struct Header {
    pub form: HeaderForm,
    pub text: Listed<u8>,
}

impl Header {
    /// How many bytes it has.
    pub(crate) fn len(&self) -> u64
        requires { length self.now.text ≤ MAX_CATALOGUE }
        ensures exact { result ≡ length (header_bytes self.now) }
        ensures few { result ≤ MAX_HEAD_LEN + MAX_CATALOGUE }
    {
        self.form.head_len() as u64 + self.text.as_slice().len() as u64
    }
}

/// The form of a header and how many bytes its catalogue's text has, by the start of a device. `None`: no header begins so.
pub(crate) fn head_of(start: &[u8]) -> Option<(HeaderForm, usize)>
    ensures some { IfSome result (λ head. (rest : List ℕ) × (start.now ≡ start_bytes head.0 head.1 ++ rest)) }
    ensures few { IfSome result (λ head. head.1 ≤ MAX_CATALOGUE) }
    ensures base { IfSome result (λ head. base_in head.0 ≤ MAX_BASE) }
    ensures again { (form : AForm) (len : ℕ) (rest : List ℕ) → base_in form ≤ MAX_BASE → len ≤ MAX_CATALOGUE → start.now ≡ start_bytes form len ++ rest → result ≡ Some (form, len) }
{
    let (form, after) = form_of(start)?;
    let Ok((len, _)) = u32_at(start, after) else {
        return None;
    };
    let len = len as usize;
    if len > MAX_CATALOGUE {
        return None;
    }
    Some((form, len))
}

// The form of a header, and the offset after what says it.
fn form_of(start: &[u8]) -> Option<(HeaderForm, usize)>
    ensures some { IfSome result (λ found. (rest : List ℕ) × (start.now ≡ form_bytes found.0 ++ rest) × (found.1 ≡ length (form_bytes found.0))) }
    ensures base { IfSome result (λ found. base_in found.0 ≤ MAX_BASE) }
    ensures again { (form : AForm) (rest : List ℕ) → base_in form ≤ MAX_BASE → start.now ≡ form_bytes form ++ rest → result ≡ Some (form, length (form_bytes form)) }
{
    if let Some(_) = start.strip_prefix(NAME) {
        return Some((HeaderForm::First, NAME.len()));
    }
    let after = start.strip_prefix(LATER_NAME)?;
    let Ok((base, end)) = u64_at(after, 0) else {
        return None;
    };
    if base > MAX_BASE {
        return None;
    }
    Some((HeaderForm::Later { base }, LATER_NAME.len() + end))
}

/// The catalogue of a text that a log may have.
///
/// # Errors
///
/// [`LogError::NoStore`] exactly where it may not, or else `NoMemory`.
pub(crate) fn header_catalogue(alloc: Global, text: &[u8]) -> Result<Catalogue, LogError>
    ensures ok { IfOk result (IsAccepted text.now) }
    ensures refused { IsErrOf result LogError.NoStore → (catalogue : CatalogueState) → ¬ IsAccepted text.now catalogue }
    ensures only { ¬ IsErrOf result LogError.DiskFault }
    ensures whole { (at : ℕ) (kind : ADamageKind) → ¬ IsErrOf result (LogError.Damaged at kind) }
{
    match accepted(alloc, text) {
        Ok(catalogue) => Ok(catalogue),
        Err(Refusal::Fault(_)) => Err(LogError::NoStore),
        Err(Refusal::NoMemory) => Err(LogError::NoMemory),
    }
}

/// The header of a catalogue's text in this form, and a closed gate.
pub(crate) fn header_and_gate(
    alloc: Global,
    form: HeaderForm,
    text: &[u8],
) -> Result<Vec<u8>, NoMemory>
    requires { length text.now ≤ MAX_CATALOGUE }
    ensures { IfOk result (λ bytes. bytes.items ≡ header_bytes (header_with form text.now) ++ 0 ∷ []) }
{
    let mut bytes = Vec::with_capacity(alloc, MAX_HEAD_LEN + text.len() + 1)?;
    put_form(&mut bytes, form)?;
    put_u32(&mut bytes, text.len() as u32)?;
    bytes.extend_from_slice(text)?;
    bytes.push(GATE_SHUT)?;
    Ok(bytes)
}

fn put_form(out: &mut Vec<u8>, form: HeaderForm) -> Result<(), NoMemory>
    ensures { OnOk result (Grew out.old.items out.new.items (form_bytes form)) }
{
    match form {
        HeaderForm::First => Ok(out.extend_from_slice(NAME)?),
        HeaderForm::Later { base } => {
            out.extend_from_slice(LATER_NAME)?;
            put_u64(out, base)
        }
    }
}
