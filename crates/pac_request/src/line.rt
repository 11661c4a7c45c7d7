// Reads request lines.
ghost use Rattle.std.specs.Prelude.{◌≡◌, length, Err, IfOk};
ghost use Rattle.pac_base.specs.Refusals.{Reports};
ghost use Rattle.pac_base.specs.declared.refusal.Refusal.TheVariants as error;
ghost use Rattle.pac_request.specs.Answers.{AnswersBy};
ghost use Rattle.pac_request.specs.LineKinds.{line_fault};
ghost use Rattle.pac_request.specs.LineSteps.{tokens_read};
ghost use Rattle.pac_request.specs.LineReading.{LineAnswer, LineSays};
ghost use Rattle.pac_request.specs.RequestMeaning.{request_of_tokens};
ghost use Rattle.pac_request.specs.RequestFits.{AskedFits};
ghost use Rattle.pac_request.specs.ScriptLines.{ScriptLineSays, is_out_of_place, out_of_place};

use crate::fault::{LineFault, LineFaultKind};
use crate::limits::MAX_LINE;
use crate::meaning::request_of;
use crate::node::Verb;
use crate::parser::parse_line;
use crate::plain::plain_call;
use crate::request::Request;
use pac_base::Refusal;
use pac_tokens::{Lexed, Spanned, Token, lex};
use pac_types::Catalogue;
use pac_value::Value;
use std::alloc::Global;

fn refused(at: usize, kind: LineFaultKind) -> Refusal<LineFault>
    ensures { result ≡ error.Fault (line_fault kind at) }
{
    Refusal::Fault(LineFault { at, kind })
}

// What the tokens of a line with that many bytes ask.
fn answer_of(
    alloc: Global,
    catalogue: &Catalogue,
    lexed: &Lexed,
    end: usize,
) -> Result<Option<Request>, Refusal<LineFault>>
    ensures exact { Reports (λ said. said) result (request_of_tokens catalogue.now (tokens_read end lexed.now.items.items lexed.now.fault)) }
    ensures fits { IfOk result (AskedFits catalogue.now) }
{
    let node = parse_line(alloc, lexed, end)?;
    request_of(alloc, catalogue, &node)
}

/// What a request line asks of a catalogue; `None` for white space and comment alone. Linear in the line.
///
/// # Errors
///
/// The first fault, or `NoMemory`:
///
/// - [`LineFaultKind::TooLong`] at 4,096, where the line has more bytes.
/// - The first fault of its tokens: [`LineFaultKind::Token`] at a byte that begins none, or at the quote of a text that
///   isn't well formed, [`LineFaultKind::TooLong`] at a name over 32 bytes, a text over 64 or an int outside 64 bits, and
///   [`LineFaultKind::Expected`] at a token that can't follow, or at the line's end. The 65th record is refused at the
///   `;` before it.
/// - Then from left to right: [`LineFaultKind::UnknownName`] at a name of no procedure or table,
///   [`LineFaultKind::WrongCount`] there where the number of arguments or values is another, and
///   [`LineFaultKind::WrongType`] at a literal of another type, `true` and `false` always.
pub fn read_line(
    alloc: Global,
    catalogue: &Catalogue,
    line: &[u8],
) -> Result<Option<Request>, Refusal<LineFault>>
    // What is answered is what the line says.
    ensures says { AnswersBy (LineSays catalogue.now line.now) result }
    // What the line says is answered, and nothing else.
    ensures only { (answer : LineAnswer) → LineSays catalogue.now line.now answer → Reports (λ said. said) result answer }
    // What is asked fits the catalogue.
    ensures fits { IfOk result (AskedFits catalogue.now) }
{
    read_line_with(alloc, catalogue, line, Vec::new(alloc))
}

/// What [`read_line`] says of a line. The arguments of a call take the room of a list, unless one of them begins with `-`; the
/// list's values are gone in any case.
///
/// # Errors
///
/// Those of [`read_line`].
pub fn read_line_with(
    alloc: Global,
    catalogue: &Catalogue,
    line: &[u8],
    room: Vec<Value>,
) -> Result<Option<Request>, Refusal<LineFault>>
    // What is answered is what the line says.
    ensures says { AnswersBy (LineSays catalogue.now line.now) result }
    // What the line says is answered, and nothing else.
    ensures only { (answer : LineAnswer) → LineSays catalogue.now line.now answer → Reports (λ said. said) result answer }
    // What is asked fits the catalogue.
    ensures fits { IfOk result (AskedFits catalogue.now) }
{
    if line.len() > MAX_LINE {
        return Err(refused(MAX_LINE, LineFaultKind::TooLong));
    }
    if let Some(call) = plain_call(catalogue, line, room)? {
        return Ok(Some(Request::Call(call)));
    }
    let lexed = lex(alloc, line)?;
    answer_of(alloc, catalogue, &lexed, line.len())
}

// Whether a script does not allow a word.
fn is_out_of_place(token: &Token) -> bool
    ensures { result ≡ is_out_of_place token.now }
{
    let Token::Name(name) = token else {
        return false;
    };
    let word = name.bytes();
    word == Verb::Show.word() || word == Verb::Save.word() || word == Verb::Stop.word()
}

// Where such a word stands, if it is the first token.
fn out_of_place(tokens: &[Spanned]) -> Option<usize>
    ensures { result ≡ out_of_place tokens.now }
{
    match tokens {
        [first, ..] if is_out_of_place(&first.token) => Some(first.at),
        _ => None,
    }
}

/// What a line of a script asks of a catalogue, as [`read_line`] reports it of any line. But a script shows no rows, saves no
/// checkpoint and isn't stopped.
///
/// # Errors
///
/// The first fault, or `NoMemory`: [`LineFaultKind::TooLong`] at 4,096 where the line has more bytes, then
/// [`LineFaultKind::NotHere`] at `show`, `save` or `stop` where that is the first token, whatever follows it, and then those
/// of [`read_line`].
pub fn read_script_line(
    alloc: Global,
    catalogue: &Catalogue,
    line: &[u8],
) -> Result<Option<Request>, Refusal<LineFault>>
    // What is answered is what the line says in a script.
    ensures says { AnswersBy (ScriptLineSays catalogue.now line.now) result }
    // What the line says there is answered, and nothing else.
    ensures only { (answer : LineAnswer) → ScriptLineSays catalogue.now line.now answer → Reports (λ said. said) result answer }
    // What is asked fits the catalogue.
    ensures fits { IfOk result (AskedFits catalogue.now) }
{
    if line.len() > MAX_LINE {
        return Err(refused(MAX_LINE, LineFaultKind::TooLong));
    }
    if let Some(call) = plain_call(catalogue, line, Vec::new(alloc))? {
        return Ok(Some(Request::Call(call)));
    }
    let lexed = lex(alloc, line)?;
    if let Some(at) = out_of_place(&lexed.items) {
        return Err(refused(at, LineFaultKind::NotHere));
    }
    answer_of(alloc, catalogue, &lexed, line.len())
}
