//! How a line of a text is cut into words. A word is bare, of bytes that are neither blanks nor quotation marks nor
//! backslashes, or it stands between quotation marks, where it may have blanks. A blank is a space or a tab.
ghost use Rattle.std.specs.Prelude.{◌≡◌, ◌↔◌, ◌∷◌, ◌≤◌, IfErr, IfOk, IsTrue, List, MatchOption, None, OnOk, Option, Some, false, length, map, true, ℕ};
ghost use Rattle.std.specs.Result.{IsErrOf};
ghost use Rattle.std.specs.Str.{IsUtf8};
ghost use Rattle.std.specs.Str.Lines.{strip_carriage_return};
ghost use Rattle.cg_name.specs.Refusal.{IsSyntaxOrMemory};
ghost use Rattle.cg_name.specs.Word.{is_bare_byte, is_blank};
ghost use Rattle.cg_text.specs.Cutting.{BeginsWith, Closes, behind, is_escaped, starts_blank, starts_sign};
ghost use Rattle.cg_text.specs.Words.{Cuts, EndsWord, Line, Says, Word, is_silent};

use crate::line_words::LineWords;
use crate::word_ends::{SHORT_LINE, word_ends};
use cg_name::{Refusal, is_bare_byte};
use memchr::{memchr, memchr3};

/// The most bytes of a line, its newline left out.
pub const LONGEST_LINE: usize = 65_536;

// How many bytes a word has at most that is short.
const SHORT_WORD: usize = 16;

/// Puts the words of a line, as they stand in it, with their quotation marks, in the place of those that `words` has.
/// Blanks separate them, and may stand before the first and behind the last. Between quotation marks a backslash stands
/// before a quotation mark, a backslash or an `n`, for a newline, and before nothing else. `Syntax` where a quotation
/// mark isn't closed, where a bare word has a mark, or where something but a blank stands behind a word. After a refusal
/// nothing is told of `words`.
pub fn cut_words<'a>(line: &'a str, words: &mut LineWords<'a>) -> Result<(), Refusal>
    ensures value { OnOk result (Cuts line.now words.new) }
    ensures syntax { IsErrOf result Refusal.Syntax → (ws : List Word) → Cuts line.now ws → ⊥ }
    ensures refusals { IfErr result IsSyntaxOrMemory }
{
    words.clear();
    let mut rest = behind_blanks(line);
    while !rest.is_empty() {
        let Some((word, others)) = cut_word(rest) else {
            return Err(Refusal::Syntax);
        };
        words.push(word)?;
        rest = behind_blanks(others);
    }
    Ok(())
}

/// What a line says: its words, which stand in `words` in the place of those that were there, or false where it says
/// nothing, since it has no byte past its blanks, or a number sign, whatever stands behind that. One carriage return at
/// the line's end is dropped. A line that is too long or isn't UTF-8 is `Syntax`, and so is one that says something and
/// can't be cut into words. After a refusal nothing is told of `words`.
pub fn read_words<'a>(line: &'a [u8], words: &mut LineWords<'a>) -> Result<bool, Refusal>
    ensures words { IfOk result (λ says. says ≡ true → Says line.now (Some words.new)) }
    ensures silent { IfOk result (λ says. says ≡ false → Says line.now None) }
    ensures syntax { IsErrOf result Refusal.Syntax → (said : Option (List Word)) → Says line.now said → ⊥ }
    ensures refusals { IfErr result IsSyntaxOrMemory }
{
    let text = without_carriage_return(line);
    if text.len() <= SHORT_LINE && cut_plain(text, words) {
        return Ok(true);
    }
    if line.len() > LONGEST_LINE {
        return Err(Refusal::Syntax);
    }
    let Some(text) = as_text(text) else {
        return Err(Refusal::Syntax);
    };
    if is_silent(text) {
        return Ok(false);
    }
    cut_words(text, words)?;
    Ok(true)
}

// Puts the words of a short line in the place of those that `words` has, where the line says something and the words are
// plain, that is bare and of ASCII, with one blank between each two: most lines are such, and are cut at their blanks. False
// where it can't, and then nothing is told of `words`.
#[inline(always)]
fn cut_plain<'a>(line: &'a [u8], words: &mut LineWords<'a>) -> bool
    requires short { length line.now ≤ 63 }
    ensures { IsTrue result → IsUtf8 line.now × (is_silent line.now ≡ false) × Cuts line.now words.new }
{
    match word_ends(line) {
        Some(ends) if !starts_sign(line) => words.cut(line, ends),
        _ => false,
    }
}

// The line without one carriage return at its end.
fn without_carriage_return(line: &[u8]) -> &[u8]
    ensures { result.now ≡ strip_carriage_return line.now }
{
    match line {
        [front @ .., b'\r'] => front,
        _ => line,
    }
}

// The line as text, where it is UTF-8.
fn as_text(line: &[u8]) -> Option<&str>
    ensures { MatchOption result (¬ (IsUtf8 line.now)) (λ text. (text.now ≡ line.now) × IsUtf8 line.now) }
{
    // Most lines are of ASCII, which is a shorter test.
    if line.is_ascii() {
        return Some(unsafe { std::str::from_utf8_unchecked(line) });
    }
    match std::str::from_utf8(line) {
        Ok(text) => Some(text),
        Err(_) => None,
    }
}

// Whether there is no byte past the line's blanks, or a number sign.
fn is_silent(line: &str) -> bool
    ensures { result ≡ is_silent line.now }
{
    match behind_blanks(line).as_bytes().first() {
        None => true,
        Some(byte) => *byte == b'#',
    }
}

// The text behind the blanks at its front.
fn behind_blanks(text: &str) -> &str
    ensures { result.now ≡ behind is_blank text.now }
{
    let mut rest = text;
    while starts_blank(rest) {
        rest = &rest[1..];
    }
    rest
}

// The first word and what stands behind it, where the text begins with a word that a blank or the text's end
// follows.
fn cut_word(text: &str) -> Option<(&str, &str)>
    ensures { MatchOption result ((word : Word) (rest : Line) → BeginsWith text.now word rest → ⊥) (λ cut. BeginsWith text.now cut.0.now cut.1.now) }
{
    let rest = behind_word(text.as_bytes())?;
    Some(text.split_at(text.len() - rest.len()))
}

// What stands behind the first word.
fn behind_word(text: &[u8]) -> Option<&[u8]>
    ensures { MatchOption result ((word : Word) (rest : Line) → BeginsWith text.now word rest → ⊥) (λ rest. (word : Word) × BeginsWith text.now word rest.now) }
{
    let (first, others) = text.split_first()?;
    let rest = match *first {
        b'"' => behind_quoted(others)?,
        byte if is_bare_byte(byte) => behind_bare(others),
        _ => return None,
    };
    ends_word(rest).then_some(rest)
}

// What stands behind the closing quotation mark of a text that follows an opening one.
#[cold]
fn behind_quoted(text: &[u8]) -> Option<&[u8]>
    ensures { MatchOption result ((rest : Line) → Closes text.now rest → ⊥) (λ rest. Closes text.now rest.now) }
{
    let mut rest = text;
    while let Some((byte, others)) = rest.split_first() {
        rest = match *byte {
            b'"' => return Some(others),
            b'\\' => behind_escaped(others)?,
            _ => others,
        };
    }
    None
}

// What stands behind the byte that a backslash escapes.
fn behind_escaped(text: &[u8]) -> Option<&[u8]>
    ensures { MatchOption result ((byte : ℕ) (rest : Line) → text.now ≡ byte ∷ rest → is_escaped byte ≡ false) (λ rest. (byte : ℕ) × (text.now ≡ byte ∷ rest.now) × (is_escaped byte ≡ true)) }
{
    match text.split_first()? {
        (b'"' | b'\\' | b'n', rest) => Some(rest),
        _ => None,
    }
}

// The text behind the bytes at its front that a bare word may have: the first ones are looked at one by one, and a search
// for the end begins behind them, since it pays only for a long word.
fn behind_bare(text: &[u8]) -> &[u8]
    ensures { result.now ≡ behind is_bare_byte text.now }
{
    let mut rest = text;
    'bytes: for _ in 0..SHORT_WORD {
        match rest {
            [byte, others @ ..] if is_bare_byte(*byte) => rest = others,
            _ => return rest,
        }
    }
    behind_many_bare(rest)
}

// The same by searches.
fn behind_many_bare(text: &[u8]) -> &[u8]
    ensures { result.now ≡ behind is_bare_byte text.now }
{
    let end = memchr3(b' ', b'\t', b'"', text).unwrap_or(text.len());
    let end = memchr(b'\\', &text[..end]).unwrap_or(end);
    &text[end..]
}

// Whether the text begins with a blank.
fn starts_blank(text: &str) -> bool
    ensures { result ≡ starts_blank text.now }
{
    matches!(text.as_bytes(), [b' ' | b'\t', ..])
}

// Whether the text begins with a number sign.
fn starts_sign(text: &[u8]) -> bool
    ensures { result ≡ starts_sign text.now }
{
    matches!(text, [b'#', ..])
}

// Whether a word may end before the text: it is empty or begins with a blank.
fn ends_word(text: &[u8]) -> bool
    ensures { IsTrue result ↔ EndsWord text.now }
{
    matches!(text, [] | [b' ' | b'\t', ..])
}
