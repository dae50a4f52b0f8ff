//! Texts without the white space at their ends: spaces, tabs and newlines, as the kernel strips what it is written.
ghost use Rattle.std.specs.Prelude.{◌≡◌, reverse};
ghost use Rattle.cg_digits.specs.WhiteSpace.{is_white_space, starts_white, trimmed, without_leading_white_space, without_trailing_white_space};

/// The text without the spaces, tabs and newlines at both ends.
pub fn trim(text: &str) -> &str
    ensures { result.now ≡ trimmed text.now }
{
    trim_back(trim_front(text))
}

/// Whether the byte is a space, a tab or a newline.
pub fn is_white_space(byte: u8) -> bool
    ensures { result ≡ is_white_space byte }
{
    matches!(byte, b' ' | b'\t' | b'\n')
}

// Whether the text begins with a space, a tab or a newline.
fn starts_white(text: &str) -> bool
    ensures { result ≡ starts_white text.now }
{
    matches!(text.as_bytes(), [b' ' | b'\t' | b'\n', ..])
}

// Whether the text ends with one.
fn ends_white(text: &str) -> bool
    ensures { result ≡ starts_white (reverse text.now) }
{
    matches!(text.as_bytes(), [.., b' ' | b'\t' | b'\n'])
}

// The text behind its leading white space.
fn trim_front(text: &str) -> &str
    ensures { result.now ≡ without_leading_white_space text.now }
{
    let mut rest = text;
    while starts_white(rest) {
        rest = &rest[1..];
    }
    rest
}

// The text before its trailing white space.
fn trim_back(text: &str) -> &str
    ensures { result.now ≡ without_trailing_white_space text.now }
{
    let mut rest = text;
    while ends_white(rest) {
        rest = &rest[..rest.len() - 1];
    }
    rest
}
