// The answer, and the tables beside it.
ghost use Rattle.std.specs.Prelude.{◌≡◌};
ghost use Rattle.numbers.specs.Answers.{wordless};
ghost use Rattle.numbers.specs.Refusals.{number_of};

use numbers::answers::Seen;
use numbers::refusals::Refusal;
use tables::state::Tables;

#[derive(Clone, Copy, Debug, PartialEq, Eq)]
pub struct Out {
    pub seen: Seen,
    pub tables: Tables,
}

impl Out {
    pub fn beside(tables: Tables, seen: Seen) -> Out
        ensures { result ≡ record { seen = seen; tables = tables } }
    {
        Out { seen, tables }
    }

    // Done, with no word to hand back.
    pub fn accepted(tables: Tables) -> Out
        ensures { result ≡ record { seen = wordless 0; tables = tables } }
    {
        Out::beside(tables, Seen::accepted())
    }

    // The tables are those from before.
    pub fn refused(tables: Tables, refusal: Refusal) -> Out
        ensures { result ≡ record { seen = wordless (number_of refusal); tables = tables } }
    {
        Out::beside(tables, Seen::refused(refusal))
    }
}
