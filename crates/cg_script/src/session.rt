//! The names of sessions.
ghost use Rattle.std.specs.Prelude.{◌≡◌, nat_eq, IfOk, IfErr, OnOk, Some};
ghost use Rattle.std.specs.Result.{IsErrOf};
ghost use Rattle.std.specs.Hash as fed;
ghost use Rattle.std.specs.Cmp.Lexicographic.{bytes_decides, pointwise};
ghost use Rattle.std.specs.Cmp.Rules.{comparing};
ghost use Rattle.std.proofs.Common.{ap, rules};
ghost use Rattle.cg_name.specs.Reads.{Reads};
ghost use Rattle.cg_name.specs.SaveName.{IsSaveName};
ghost use Rattle.cg_name.specs.declared.refusal.Refusal.TheVariants.{Syntax};

use cg_name::{Refusal, SaveName};
use std::fmt;
use std::hash::{Hash, Hasher};
use std::marker::Model;
use std::str::FromStr;

/// A session's name: 1 to 16 ASCII letters, digits, underscores or dashes, as a savepoint's name is.
#[derive(Clone, Copy, Debug)]
pub struct SessionName {
    name: SaveName,
}

impl Model for SessionName {
    ghost use Rattle.std.specs.Prelude.{List, ℕ, refl};

    ghost Value = { List ℕ };

    ghost view = { λ n. n.name };

    ghost inverse = { λ name. record { name = name } };

    ghost inverse_ok = { λ n h. refl };
}

impl SessionName {
    /// The name that the text spells: itself. `Syntax` where it is none. Takes no memory.
    pub fn read(text: &str) -> Result<SessionName, Refusal>
        ensures value { IfOk result (λ n. n ≡ text.now) }
        ensures valid { OnOk result (IsSaveName text.now) }
        ensures syntax { IsErrOf result Refusal.Syntax → ¬ (IsSaveName text.now) }
        ensures refusals { IfErr result (λ e. e ≡ Syntax) }
    {
        Ok(SessionName {
            name: SaveName::read(text)?,
        })
    }

    /// The name's bytes, from 1 to 16.
    pub fn as_bytes(&self) -> &[u8]
        ensures value { result.now ≡ self.now }
        ensures valid { IsSaveName self.now }
    {
        self.name.as_bytes()
    }
}

impl FromStr for SessionName {
    type Err = Refusal;

    ghost from_str_gives = { Reads (λ text n. (n ≡ text) × IsSaveName text) };

    fn from_str(text: &str) -> Result<SessionName, Refusal> {
        SessionName::read(text)
    }
}

/// Shows the name as it stands.
impl fmt::Display for SessionName {
    ghost output = { λ n. Some n };

    fn fmt<W: fmt::Write>(&self, f: &mut fmt::Formatter<W>) -> fmt::Result {
        fmt::Display::fmt(&self.name, f)
    }
}

impl PartialEq for SessionName {
    ghost eq = { pointwise nat_eq };

    ghost laws = { Prim.search (comparing, rules) };

    fn eq(&self, other: &SessionName) -> bool {
        self.name == other.name
    }
}

impl Eq for SessionName {
    ghost laws = { Prim.search (comparing, rules) };
}

impl Hash for SessionName {
    ghost hash_input = { fed.str };

    ghost respects_eq = { λ x y h. ap fed.str ((bytes_decides x y).0 h) };

    fn hash<H: Hasher>(&self, state: &mut H) {
        self.name.hash(state);
    }
}
