//! Paths as they are shown.
ghost use Rattle.std.specs.Prelude.{Some, ◌≡◌, ◌∷◌};
ghost use Rattle.std.specs.Char.{encode_utf8};
ghost use Rattle.std.specs.List.{flat_map};
ghost use Rattle.cg_name.specs.Path.{path_word};
ghost use Rattle.cg_name.specs.Word.{is_special, quoted_byte};

use crate::path::Path;
use crate::path_ref::{PathRef, has_plain_names};
use std::fmt;

/// Shows the one word of the path, as `write` appends it.
impl fmt::Display for Path {
    ghost output = { λ p. Some (path_word p) };

    fn fmt<W: fmt::Write>(&self, f: &mut fmt::Formatter<W>) -> fmt::Result {
        f.write(self.borrowed())
    }
}

/// Shows the one word of the path, as `write` appends it.
impl fmt::Display for PathRef<'_> {
    ghost output = { λ p. Some (path_word p) };

    fn fmt<W: fmt::Write>(&self, f: &mut fmt::Formatter<W>) -> fmt::Result {
        if self.is_root() {
            return f.write_char('/');
        }
        if has_plain_names(self) {
            return f.write(Bare(self));
        }
        f.write_char('"')?;
        f.write(Quoted(self))?;
        f.write_char('"')
    }
}

// The names of a path, each with a slash before it.
#[derive(Clone, Copy)]
struct Bare<'a, 'b>(&'b PathRef<'a>);

impl fmt::Display for Bare<'_, '_> {
    ghost output = { λ p. Some (flat_map (λ n. 47 ∷ n) p.0.now) };

    fn fmt<W: fmt::Write>(&self, f: &mut fmt::Formatter<W>) -> fmt::Result {
        for name in self.0.names() {
            f.write_char('/')?;
            f.write_str(name)?;
        }
        Ok(())
    }
}

// The same, as it stands between quotation marks.
#[derive(Clone, Copy)]
struct Quoted<'a, 'b>(&'b PathRef<'a>);

impl fmt::Display for Quoted<'_, '_> {
    ghost output = { λ p. Some (flat_map quoted_byte (flat_map (λ n. 47 ∷ n) p.0.now)) };

    fn fmt<W: fmt::Write>(&self, f: &mut fmt::Formatter<W>) -> fmt::Result {
        for name in self.0.names() {
            f.write_char('/')?;
            f.write(Escaped(name))?;
        }
        Ok(())
    }
}

// A text as it stands between quotation marks.
#[derive(Clone, Copy)]
struct Escaped<'a>(&'a str);

impl fmt::Display for Escaped<'_> {
    ghost output = { λ text. Some (flat_map quoted_byte text.0.now) };

    fn fmt<W: fmt::Write>(&self, f: &mut fmt::Formatter<W>) -> fmt::Result {
        for character in self.0.chars() {
            f.write(EscapedChar(character))?;
        }
        Ok(())
    }
}

// A character as it stands between quotation marks.
#[derive(Clone, Copy)]
struct EscapedChar(char);

impl fmt::Display for EscapedChar {
    ghost output = { λ c. Some (flat_map quoted_byte (encode_utf8 c.0)) };

    fn fmt<W: fmt::Write>(&self, f: &mut fmt::Formatter<W>) -> fmt::Result {
        let EscapedChar(character) = *self;
        if character == '\n' {
            return f.write_str("\\n");
        }
        if is_special(character) {
            f.write_char('\\')?;
            return f.write_char(character);
        }
        f.write_char(character)
    }
}

// Whether a backslash stands before the character.
fn is_special(character: char) -> bool
    ensures { result ≡ is_special character }
{
    character == '"' || character == '\\'
}
