// What a list tells of its entries beside their values.
ghost use Rattle.std.specs.Prelude.{◌+◌, ◌<◌, ◌^◌, ◌≡◌};
ghost use Rattle.meaning.specs.Found.{unused};
ghost use Rattle.lists.specs.Laid.{row};
ghost use Rattle.lists.specs.Push.{ticked, filled_row};

// What is told of the entries that fell back: how many they are.
#[derive(Clone, Copy)]
pub struct Tally {
    pub fell: usize,
}

// How many entries there are, whether their clause stands or was filled in, and the tally.
// kept: `row` of specs/Laid.antt says `stood` beside the length and the tally; both clauses have all three, so that an enum is no plainer
#[derive(Clone, Copy)]
pub struct Row {
    pub len: usize,
    pub stood: bool,
    pub tally: Tally,
}

// One entry more that fell back.
pub(crate) fn tick(t: Tally) -> Tally
    requires { t.fell + 1 < 2 ^ 64 }
    ensures { result ≡ ticked t }
{
    Tally { fell: t.fell + 1 }
}

// A clause with no entry yet.
pub(crate) fn no_entry() -> Row
    ensures { result ≡ row unused }
{
    Row {
        len: 0,
        stood: true,
        tally: Tally { fell: 0 },
    }
}

// A clause that was filled in with `n` entries: none of them fell back.
pub(crate) fn filled_in(n: usize) -> Row
    ensures { result ≡ filled_row n }
{
    Row {
        len: n,
        stood: false,
        tally: Tally { fell: 0 },
    }
}
