//! The least holder of each part of what is held at a path.
ghost use Rattle.std.specs.Prelude.{◌≡◌, cond, IsTrue};
ghost use Rattle.cg_locks.specs.Held.{same_part};
ghost use Rattle.cg_locks.specs.FirstsAndOthers.{first_in};
ghost use Rattle.cg_locks.specs.declared.held.Part.{Part};

use crate::held::Part;

// The least holder in one part, and how often it holds the thing: 0 where nobody does.
#[derive(Clone, Copy)]
pub(crate) struct First {
    pub(crate) holder: u32,
    pub(crate) times: u32,
}

// That of each part, by the parts' numbers.
#[derive(Clone, Copy)]
pub(crate) struct Firsts {
    of_parts: [First; 7],
}

// Nobody.
const NOBODY: First = First {
    holder: 0,
    times: 0,
};

impl Firsts {
    // Nobody in each part.
    pub(crate) fn new() -> Firsts
        ensures { (r : Part) → (first_in r result).times ≡ 0 }
    {
        Firsts {
            of_parts: [NOBODY; 7],
        }
    }

    // Whether there is nobody in any part.
    pub(crate) fn are_none(&self) -> bool
        ensures { IsTrue result → (r : Part) → (first_in r self.now).times ≡ 0 }
    {
        let [
            changed,
            changed_below,
            stays_below,
            read_below,
            read,
            stays,
            descendants,
        ] = &self.of_parts;
        // Where somebody holds something, it is mostly that of which is asked first: a subtree to be changed, here or below.
        changed_below.times == 0
            && changed.times == 0
            && read.times == 0
            && stays.times == 0
            && descendants.times == 0
            && read_below.times == 0
            && stays_below.times == 0
    }

    // That of this part.
    #[inline(always)]
    pub(crate) fn get(&self, part: Part) -> First
        ensures { result ≡ first_in part self.now }
    {
        self.of_parts[part.number()]
    }

    // Writes another there.
    #[inline(always)]
    pub(crate) fn put(&mut self, part: Part, holder: u32, times: u32)
        ensures { (r : Part) → first_in r self.new ≡ cond (same_part r part) (record { holder = holder; times = times }) (first_in r self.old) }
    {
        self.of_parts[part.number()] = First { holder, times };
    }
}
