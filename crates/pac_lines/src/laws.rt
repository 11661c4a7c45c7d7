// What holds of the lines of a text, and of calls that hand them out. Each law is a function without code.
ghost use Rattle.std.specs.Prelude.{◌≡◌, ◌++◌, [], ℕ, Bool, List, Option, Some, Result, Ok, Err, MatchResult, false};
ghost use Rattle.pac_lines.specs.Calls.{Calls, IsCall, HasTooMuch, KeepsLimit, known};
ghost use Rattle.pac_lines.specs.Lines.{AreLines, HandsOut, Lines, all_lines, lines_of};
ghost use Rattle.pac_lines.specs.Reading.{ReaderState};
ghost use Rattle.pac_lines.specs.declared.line_error.LineError.{LineError as ALineError};
ghost use Rattle.pac_lines.specs.declared.line_error.LineError.TheVariants.{TooLong};

/// Each text has lines and a rest, and only these.
pub fn each_text_has_its_lines()
    ensures are { (text : List ℕ) → AreLines text (lines_of text) }
    ensures only { (text : List ℕ) (lines : Lines) → AreLines text lines → lines ≡ lines_of text }
{}

/// Where lines are handed out of a text one after another, they are its first ones, and the others are those of what is
/// left of it. The rest after the last line feed is the last one, if it isn't empty.
pub fn lines_come_in_turn()
    ensures { (text left : List ℕ) (lines : List (List ℕ)) → HandsOut text lines left → all_lines (lines_of text) ≡ lines ++ all_lines (lines_of left) }
{}

/// Calls of a reader that hands out lines do so of the text that is ahead and then left of the source. One that hands out
/// none was after the whole text.
pub fn calls_hand_out_lines()
    ensures lines { (text : List ℕ) (before now : ReaderState) (left left' : Option (List ℕ)) (lines : List (List ℕ)) → Calls before left lines now left' → known before left ≡ Some text → (rest : List ℕ) × (known now left' ≡ Some rest) × HandsOut text lines rest }
    ensures end { (text : List ℕ) (before now : ReaderState) (left left' : Option (List ℕ)) → IsCall before now left left' (Ok false) → known before left ≡ Some text → text ≡ [] }
{}

/// Of a text that is ahead and then left of the source, a call answers that it is too long only where it is, and hands
/// out a line, or none, only where it isn't: where more than may be taken is ahead and left, and no line feed in what may.
pub fn too_long_is_reported_exactly()
    ensures { (text : List ℕ) (before now : ReaderState) (left left' : Option (List ℕ)) (result : Result Bool ALineError) → IsCall before now left left' result → KeepsLimit now result → known before left ≡ Some text → MatchResult result (λ _. ¬ HasTooMuch before text) (λ error. error ≡ TooLong → HasTooMuch before text) }
{}

/// After an error, what is ahead and then left of the source is what it was before the call.
pub fn no_byte_is_lost()
    ensures { (before now : ReaderState) (left left' : Option (List ℕ)) (error : ALineError) → IsCall before now left left' (Err error) → known now left' ≡ known before left }
{}
