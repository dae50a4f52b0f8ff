//! Scripts read from their text.
ghost use Rattle.std.specs.Prelude.{◌≡◌, ◌∷◌, ◌++◌, [], List, ℕ, Bool, false, IfOk, IfErr, OnOk, map};
ghost use Rattle.std.specs.Result.{IsErrOf};
ghost use Rattle.cg_name.specs.Refusal.{IsSyntaxOrMemory};
ghost use Rattle.cg_text.specs.Words.{Line};
ghost use Rattle.cg_history.specs.Meaning.{request_of};
ghost use Rattle.cg_model.specs.Cgroups.{cgroups};
ghost use Rattle.cg_model.specs.History as model;
ghost use Rattle.cg_script.specs.Script.{IsScriptRequest, OneScript, SayRequests, ScriptsCanBeAsked, SpellsScript};
ghost use Rattle.cg_script.specs.ScriptLines.{IsNoScript, asked_by};

use crate::request::read_request;
use crate::script::Script;
use cg_history::Request;
use cg_name::Refusal;
use cg_text::{LineWords, read_words};
use std::alloc::Global;

/// The most bytes of a script's text.
pub const LONGEST_SCRIPT: usize = 16_777_216;

// The most requests of a script.
const MOST_REQUESTS: usize = 65_536;

/// The script that a text of at most 16,777,216 bytes spells; `Syntax` where it spells none: a bad line makes the whole text
/// bad, and so does a request more than 65,536. `Memory` where there is none for it.
pub fn read_script(alloc: Global, text: &[u8]) -> Result<Script, Refusal>
    ensures value { IfOk result (λ s. SpellsScript text.now (map request_of s.requests.items) s.aborts) }
    ensures syntax { IsErrOf result Refusal.Syntax → (requests : List (model.Request cgroups)) (aborts : Bool) → SpellsScript text.now requests aborts → ⊥ }
    ensures refusals { IfErr result IsSyntaxOrMemory }
{
    if text.len() > LONGEST_SCRIPT {
        return Err(Refusal::Syntax);
    }
    let mut script = Script::new(alloc);
    for line in text.split(|byte| *byte == b'\n') {
        script.take_line(alloc, line)?;
    }
    Ok(script)
}

/// A text spells one script at most.
pub fn a_text_spells_one_script_at_most()
    ensures { OneScript }
{}

/// What a script of a text asks for can be asked for: its lines are read again where they are written.
pub fn scripts_can_be_asked()
    ensures { ScriptsCanBeAsked }
{}

impl Script {
    // The script of no lines.
    fn new(alloc: Global) -> Script
        ensures { asked_by result ≡ [] }
    {
        Script {
            requests: Vec::new(alloc),
            aborts: false,
        }
    }

    // Takes the next line. After a refusal nothing is told of the script.
    fn take_line(&mut self, alloc: Global, line: &[u8]) -> Result<(), Refusal>
        ensures taken { OnOk result ((lines : List Line) → SayRequests lines (asked_by self.old) → SayRequests (lines ++ line.now ∷ []) (asked_by self.new)) }
        ensures syntax { IsErrOf result Refusal.Syntax → (lines : List Line) (more : List (model.Request cgroups)) → SayRequests (line.now ∷ lines) more → IsNoScript (asked_by self.old ++ more) }
        ensures refusals { IfErr result IsSyntaxOrMemory }
    {
        let mut words = LineWords::new(alloc);
        if !read_words(line, &mut words)? {
            return Ok(());
        }
        let request = read_request(alloc, words.as_slice())?;
        self.take(request)
    }

    // Takes the next request.
    fn take(&mut self, request: Request) -> Result<(), Refusal>
        ensures taken { OnOk result (asked_by self.new ≡ asked_by self.old ++ request_of request ∷ []) }
        ensures syntax { IsErrOf result Refusal.Syntax → (others : List (model.Request cgroups)) → IsNoScript (asked_by self.old ++ request_of request ∷ others) }
        ensures refusals { IfErr result IsSyntaxOrMemory }
    {
        if self.aborts {
            return Err(Refusal::Syntax);
        }
        match request {
            Request::Begin => Err(Refusal::Syntax),
            Request::Commit => Err(Refusal::Syntax),
            Request::Abort => {
                self.aborts = true;
                Ok(())
            }
            request => self.add(request),
        }
    }

    // Adds a request that a script may have.
    fn add(&mut self, request: Request) -> Result<(), Refusal>
        requires ends { self.old.aborts ≡ false }
        requires own { IsScriptRequest (request_of request) }
        ensures taken { OnOk result (asked_by self.new ≡ asked_by self.old ++ request_of request ∷ []) }
        ensures syntax { IsErrOf result Refusal.Syntax → (others : List (model.Request cgroups)) → IsNoScript (asked_by self.old ++ request_of request ∷ others) }
        ensures refusals { IfErr result IsSyntaxOrMemory }
    {
        if self.requests.len() >= MOST_REQUESTS {
            // By a call: else its destructor is a part of this body, with a way out for each case.
            drop(request);
            return Err(Refusal::Syntax);
        }
        self.requests.push(request)?;
        Ok(())
    }
}
