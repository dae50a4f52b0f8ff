//! Keywords.
ghost use Rattle.std.specs.Prelude.{◌≡◌, ◌↔◌, IsTrue};

/// Whether the word is this keyword. Where the code names the keyword, the word is compared with it in place, and mostly told
/// from it by its length or its first byte: a line asks that of many keywords.
#[inline(always)]
pub fn is_keyword(word: &str, keyword: &str) -> bool
    ensures { IsTrue result ↔ word.now ≡ keyword.now }
{
    let (word, keyword) = (word.as_bytes(), keyword.as_bytes());
    if word.len() != keyword.len() {
        return false;
    }
    for i in 0..keyword.len() {
        if word[i] != keyword[i] {
            return false;
        }
    }
    true
}
