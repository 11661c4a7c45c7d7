// The lines of a text, and where the first that is `---` begins.
ghost use Rattle.std.specs.Prelude.{◌≡◌, ◌+◌, ◌<◌, ◌≤◌, ◌∷◌, [], length, IfSome, MatchOption};
ghost use Rattle.pac_script.specs.Lines.{lines, begins_with_mark, IsMark, HasNoMark};

use pac_lines::feed_at;

fn begins_with_mark(text: &[u8]) -> bool
    ensures { result ≡ begins_with_mark text.now }
{
    match text {
        [b'-', b'-', b'-'] => true,
        [b'-', b'-', b'-', next, ..] => *next == b'\n',
        _ => false,
    }
}

/// Where the first line that is exactly `---` begins.
pub fn find_mark(text: &[u8]) -> Option<usize>
    ensures within { IfSome result (λ at. at + 3 ≤ length text.now) }
    ensures mark { MatchOption result (HasNoMark text.now) (λ at. IsMark text.now at) }
{
    let mut at = 0;
    loop {
        let rest = &text[at..];
        if begins_with_mark(rest) {
            return Some(at);
        }
        match feed_at(rest) {
            None => return None,
            Some(len) => at += len + 1,
        }
    }
}

/// The first line of a text, and the text after its line feed, if it has one.
pub(crate) fn first_line(text: &[u8]) -> (&[u8], Option<&[u8]>)
    ensures within { IfSome result.1 (λ rest. length rest.now < length text.now) }
    ensures lines { MatchOption result.1 (lines text.now ≡ result.0.now ∷ []) (λ rest. lines text.now ≡ result.0.now ∷ lines rest.now) }
{
    match feed_at(text) {
        None => (text, None),
        Some(at) => (&text[..at], Some(&text[at + 1..])),
    }
}
