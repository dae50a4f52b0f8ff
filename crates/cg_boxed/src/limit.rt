//! Limits in four bytes.
ghost use Rattle.std.specs.Prelude.{◌≡◌};

use cg_text::Limit;
use std::marker::Model;

// A limit, as the kernel keeps it: the number behind the greatest that is a limit's stands for `max`.
#[derive(Clone, Copy)]
pub(crate) struct KeptLimit {
    number: u32,
}

const _: () = prove!(size_of::<KeptLimit>() == 4);

impl Model for KeptLimit {
    ghost use Rattle.std.specs.Prelude.{◌≤◌};
    ghost use Rattle.cg_text.specs.declared.limit.Limit.{Limit};

    ghost Value = { Limit };

    ghost use Rattle.cg_boxed.specs.Limits.{limit_kept, number_kept};
    ghost use Rattle.cg_boxed.specs.LimitsBack.{number_back};

    ghost view = { λ l. limit_kept l.number };

    ghost invariant = { λ l. l.number ≤ 2147483647 };

    ghost inverse = { λ limit. record { number = number_kept limit } };

    ghost inverse_ok = { λ l h i. record { number = number_back l.number h i } };
}

impl KeptLimit {
    // That limit.
    pub(crate) fn new(limit: Limit) -> KeptLimit
        ensures { result ≡ limit }
    {
        match limit {
            Limit::Max => KeptLimit {
                number: Limit::LAST + 1,
            },
            Limit::UpTo(most) => KeptLimit {
                number: most.number,
            },
        }
    }

    // The limit.
    pub(crate) fn get(self) -> Limit
        ensures { result ≡ self }
    {
        if self.number <= Limit::LAST {
            Limit::up_to(self.number)
        } else {
            Limit::Max
        }
    }
}
