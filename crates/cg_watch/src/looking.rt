//! One look at a watched file.
ghost use Rattle.std.specs.Prelude.{◌≡◌, IfSome};
ghost use Rattle.std.specs.Bool.{OnFalse, OnTrue};
ghost use Rattle.cg_history.specs.Meaning.{answer_of};
ghost use Rattle.cg_view.specs.Viewers.{seen_by};
ghost use Rattle.cg_watch.specs.Watches.{HasToldSince, HasToldWhole, IsLater, Sees};

use crate::lines::{line_of, value_of};
use crate::watch::Watch;
use cg_history::BoxedText;
use cg_lines::{Sink, write_all};
use cg_name::{FileName, Path, Refusal};
use cg_runner::Answer;
use cg_view::Viewer;
use std::alloc::Global;

// Looks at the file, and tells what it holds, where that isn't what was told last. Whether the sink took what was told.
#[tactic(auto, using(crate::proofs::Telling::same_watch))]
pub(crate) fn look<S: Sink>(alloc: Global, watch: &mut Watch<S>, viewer: &mut Viewer) -> bool
    ensures whole { OnTrue result (HasToldWhole S.taken (seen_by viewer.old) (seen_by viewer.new) watch.old watch.new) }
    ensures front { OnFalse result (HasToldSince S.taken (seen_by viewer.old) watch.old watch.new) }
    ensures subscription { watch.new.subscription ≡ watch.old.subscription }
{
    let Some(answer) = answer(alloc, viewer, &watch.path, watch.file) else {
        return true;
    };
    tell(alloc, watch, viewer, &answer)
}

// What a look at the file gives, as the answer to a request for it; none where it gives nothing for now.
#[tactic(auto, using(crate::proofs::Telling::sees_text, crate::proofs::Telling::sees_refusal))]
fn answer(alloc: Global, viewer: &mut Viewer, path: &Path, file: FileName) -> Option<Answer>
    ensures sees { IfSome result (λ answer. Sees (seen_by viewer.new) path.now file (answer_of answer)) }
    ensures later { IsLater (seen_by viewer.new) (seen_by viewer.old) }
{
    match viewer.read(alloc, path, file) {
        Ok(text) => {
            let text = BoxedText::new(alloc, text.as_slice()).ok()?;
            Some(Answer::Text(text))
        }
        Err(Refusal::NoGroup) => Some(Answer::Refused(Refusal::NoGroup)),
        Err(Refusal::NoFile) => Some(Answer::Refused(Refusal::NoFile)),
        Err(_) => None,
    }
}

// Tells the answer, which the Viewer has seen last, where it isn't what was told last. Whether the sink took it.
#[tactic(auto, using(crate::proofs::Telling::same_watch, crate::proofs::Telling::still))]
fn tell<S: Sink>(alloc: Global, watch: &mut Watch<S>, viewer: &Viewer, answer: &Answer) -> bool
    requires { Sees (seen_by viewer.now) watch.old.path watch.old.file (answer_of answer.now) }
    ensures whole { OnTrue result (HasToldWhole S.taken (seen_by viewer.now) (seen_by viewer.now) watch.old watch.new) }
    ensures front { OnFalse result (HasToldSince S.taken (seen_by viewer.now) watch.old watch.new) }
    ensures subscription { watch.new.subscription ≡ watch.old.subscription }
{
    let Ok(value) = value_of(alloc, answer) else {
        return true;
    };
    if value == watch.value {
        return true;
    }
    let commits = viewer.commits();
    let Ok(line) = line_of(alloc, &watch.path, watch.file, commits, value.as_slice()) else {
        return true;
    };
    watch.value = value;
    write_all(&mut watch.sink, line.as_slice()).is_ok()
}
